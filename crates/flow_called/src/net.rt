//! The text of a network file in a call.
use crate::refusal::{Refusal, refusal_of};
use crate::used::{Joined, UsedStop, with_used};
use flow_fill::{FillStop, fill};
use flow_given::all_given;
use flow_load::Stop;
use flow_text::Shelf;
use std::alloc::{AllocError, Global};

/// Why a network file of version 3 comes to no text in a call.
#[derive(Drop)]
pub enum NetStop {
    /// What the call gives for its words is refused.
    Words(Refusal),
    /// The files that it uses give no text, or memory was wanting.
    Used(UsedStop),
}

impl From<AllocError> for NetStop {
    fn from(stop: AllocError) -> NetStop {
        NetStop::Used(UsedStop::from(stop))
    }
}

/// The text of the network file of version 3 that has this name and these bytes, with what the words of a call give for its own, each of the form NAME=TEXT, and
/// with the subnets of the files that it uses.
pub fn text_of<F: Shelf>(
    alloc: Global,
    shelf: &mut F,
    name: &str,
    net: &[u8],
    words: &[String],
) -> Result<Joined, NetStop> {
    let given = all_given(alloc, words)?;
    let text = match fill(alloc, net, &given) {
        Ok(text) => text,
        Err(FillStop::Fault(fault)) => {
            let refusal = refusal_of(alloc, net, &given, fault)?;
            return Err(NetStop::Words(refusal));
        }
        Err(FillStop::TooLong) => {
            let name = String::from_str(alloc, name)?;
            return Err(NetStop::Used(UsedStop::Stop(Stop::TooLong(name))));
        }
        Err(FillStop::NoMemory) => return Err(NetStop::from(AllocError)),
    };
    match with_used(alloc, shelf, name, net, text) {
        Ok(joined) => Ok(joined),
        Err(stop) => Err(NetStop::Used(stop)),
    }
}
