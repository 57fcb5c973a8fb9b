//! What the component makes of its stream: the law is the contract of a function that does nothing.
ghost use Rattle.flow_where.specs.Meanings.{WhereMeaning};

/// What a Where that has come to its end has sent: to its first output the packets whose number is within its bound, and the
/// brackets, and to its second one, if that is connected, the others.
pub fn where_keeps_its_meaning()
    ensures { WhereMeaning }
{}
