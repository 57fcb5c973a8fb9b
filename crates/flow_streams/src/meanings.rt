//! What the components make of their streams: each law is the contract of a function that does nothing.
ghost use Rattle.flow_streams.specs.Meanings.{BundleMeaning, CollateMeaning, ConcatMeaning, CopyMeaning, DiscardMeaning, HoardMeaning, LoadBalanceMeaning, PassthruMeaning, SelectMeaning, SelectStarts, SelectTakesTexts, UnbundleMeaning};
ghost use Rattle.flow_streams.specs.declared.discard.Discard.{Discard};
ghost use Rattle.flow_streams.specs.declared.hoard.Hoard.{Hoard};
ghost use Rattle.flow_streams.specs.declared.passthru.Passthru.{Passthru};

/// What a Passthru that has come to its end has sent is what it got.
pub fn passthru_keeps_its_meaning()
    ensures { PassthruMeaning Passthru }
{}

/// What a Copy has sent to each of its outputs is what it got: to the last one the packets themselves, to each other one packets of
/// the same kind and text without chains.
pub fn copy_keeps_its_meaning()
    ensures { CopyMeaning }
{}

/// What a Concat that has come to its end has sent is what it got at its first input, then what it got at the next, and so on.
pub fn concat_keeps_its_meaning()
    ensures { ConcatMeaning }
{}

/// What a Collate that has come to its end has sent is the collation of what it got at its inputs.
pub fn collate_keeps_its_meaning()
    ensures { CollateMeaning }
{}

/// A Discard sends nothing.
pub fn discard_keeps_its_meaning()
    ensures { DiscardMeaning Discard }
{}

/// A Hoard sends nothing.
pub fn hoard_keeps_its_meaning()
    ensures { HoardMeaning Hoard }
{}

/// What an Unbundle has sent is what it got, with each packet that has a chain of items replaced by a substream of them.
pub fn unbundle_keeps_its_meaning()
    ensures { UnbundleMeaning }
{}

/// What a LoadBalance has sent is a split of what it got: each packet went to one of its outputs, in order, and the packets of a
/// substream to the same.
pub fn load_balance_keeps_its_meaning()
    ensures { LoadBalanceMeaning }
{}

/// What a Bundle has sent is what it got, with each substream replaced by its bundle.
pub fn bundle_keeps_its_meaning()
    ensures { BundleMeaning }
{}

/// What a Select has sent is the selection of what it got: each packet by the key of its number, and rejected where there is none any
/// more. A text that each start gives anew it gets once an activation, and it was activated as often as the longest of the streams
/// that wake it has packets.
pub fn select_keeps_its_meaning()
    ensures selection { SelectMeaning }
    ensures texts { SelectTakesTexts }
    ensures activations { SelectStarts }
{}
