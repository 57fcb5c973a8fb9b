//! What the components make of their streams: each law is the contract of a function that does nothing.
ghost use Rattle.flow_pick.specs.Meanings.{HeadMeaning, TailMeaning, UniqueMeaning};
ghost use Rattle.flow_pick.specs.Plain.{HeadIsTake, TailIsDrop, UniqueIsDedup};

/// What a Unique that has come to its end has sent: to its first output what is no repeat, and to its second one, if that is connected,
/// what is one.
pub fn unique_keeps_its_meaning()
    ensures { UniqueMeaning }
{}

/// What a Head that has come to its end has sent: to its first output the first packets of each stretch and the brackets, and to its
/// second one, if that is connected, the others.
pub fn head_keeps_its_meaning()
    ensures { HeadMeaning }
{}

/// What a Tail that has come to its end has sent: to its first output the last packets of each stretch and the brackets, and to its
/// second one, if that is connected, the others.
pub fn tail_keeps_its_meaning()
    ensures { TailMeaning }
{}

/// What the three make of a stream without brackets, as of any list: the first packet of each row with one text, the first packets, and
/// the last ones.
pub fn streams_without_brackets_are_lists()
    ensures unique { UniqueIsDedup }
    ensures head { HeadIsTake }
    ensures tail { TailIsDrop }
{}
