//! What Update makes of its stream, and what the batch update of sorted files comes to: each law is the contract of a function that
//! does nothing.
ghost use Rattle.flow_batch.specs.Batch.{BatchIsBook};
ghost use Rattle.flow_batch.specs.One.{OneList, OneOrder};
ghost use Rattle.flow_batch.specs.Updated.{UpdateMeaning};

/// What an Update that has come to its end has sent: to its first output the new master of each group that has a balance, and to its
/// second one, if that is connected, what was refused.
pub fn update_keeps_its_meaning()
    ensures { UpdateMeaning }
{}

/// What Update makes of the collation of sorted masters and sorted details is the book of the masters followed by the details: a line
/// for each key that has an amount, in ascending order of keys, and what was refused in stable ascending order of its keys.
pub fn a_batch_is_a_book()
    ensures { BatchIsBook }
{}

/// The amounts of a book are one list of entries, and texts have one stable order of their keys: so a book has one pair of files.
pub fn a_book_has_one_order()
    ensures entries { OneList }
    ensures texts { OneOrder }
{}
