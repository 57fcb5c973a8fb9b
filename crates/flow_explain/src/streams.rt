//! Standard streams where a network file names them as files.
use crate::named::Use;
use std::alloc::AllocError;

/// Tells of a file with a fault how a standard stream is named, where it seems that one was meant.
pub fn put_stream(page: &mut String, file: &str, used: Use) -> Result<(), AllocError> {
    page.push_str(sentence(file, used))
}

// What there is to say of a file of this name.
fn sentence(file: &str, used: Use) -> &'static str {
    match (file, used) {
        ("-", Use::Read) => {
            "That is a file with the name -. The standard input is named /dev/stdin.\n"
        }
        ("-", Use::Written) => {
            "That is a file with the name -. The standard output is named /dev/stdout.\n"
        }
        ("/dev/stdout", Use::Written) => {
            "So a pipe or a terminal is written. Where the standard output goes to a file, name that file here.\n"
        }
        _ => "",
    }
}
