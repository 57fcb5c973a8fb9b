//! Where a line stands in a file.

/// Where a line stands.
#[derive(Clone, Copy, Debug, PartialEq, Eq)]
pub enum Place {
    /// No line before it says something.
    Head,
    /// In the main part of a file of version 3.
    Main,
    /// In a subnet of such a file, or it ends one.
    Inside,
    /// In a file that isn't of version 3.
    Other,
}
