//! Comparing a text with bytes.
ghost use Rattle.std.specs.Prelude.{◌≡◌};
ghost use Rattle.std.specs.Str.{bytes_eq};

use flow_items::Text;

/// Whether a text is these bytes.
pub fn is(text: &Text, bytes: &[u8]) -> bool
    ensures { result ≡ bytes_eq text.now bytes.now }
{
    text.as_slice() == bytes
}

/// Whether bytes are these.
pub fn are(bytes: &[u8], others: &[u8]) -> bool
    ensures { result ≡ bytes_eq bytes.now others.now }
{
    bytes == others
}
