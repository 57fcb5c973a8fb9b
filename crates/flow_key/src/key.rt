//! How the key of a text is found.

ghost use Rattle.std.specs.Prelude.{◌≡◌, ◌≤◌, Some, None, length, option_map, IfOk, IfSome};
ghost use Rattle.flow_pattern.specs.Pattern.{IsPattern};
ghost use Rattle.flow_key.specs.Key.{found_key, key_of};
ghost use Rattle.flow_key.specs.Template.{key_template};

use flow_pattern::{Filler, Rewritten, is_template};
use std::alloc::{AllocError, Global};
use std::marker::Model;

/// How the key of a text is found: by a pattern, or without one. It is seen as the pattern, if there is one.
///
/// The key is what the first group of the pattern holds in the first match in the text, or the whole match where the
/// pattern has no group; a text in which nothing matches has none. Without a pattern the whole text is the key.
// What searches lies in a box: it is large, and a component that has a key is moved at each turn.
#[derive(Drop)]
pub struct Key {
    filler: Option<Box<Filler>>,
}

impl Model for Key {
    ghost use Rattle.std.specs.Prelude.{◌≡◌, ℕ, List, Option, option_map, IfSome};
    ghost use Rattle.flow_key.specs.Template.{key_template};

    ghost Value = { Option (List ℕ) };

    ghost view = { λ k. option_map (λ filler. filler.value.pattern) k.filler };

    ghost invariant = { λ k. IfSome k.filler (λ filler. filler.value.with ≡ key_template filler.value.pattern) };
}

// What writes the key at a match.
fn filler_for(alloc: Global, pattern: &[u8]) -> Result<Filler, AllocError>
    requires pattern { IsPattern pattern.now }
    ensures { IfOk result (λ filler. filler ≡ record { pattern = pattern.now; with = key_template pattern.now }) }
{
    if is_template(alloc, pattern, b"$1")? {
        return Filler::new(alloc, pattern, b"$1");
    }
    Filler::of_whole(alloc, pattern)
}

// What the pattern finds.
fn find(filler: &mut Filler, alloc: Global, text: &[u8]) -> Result<Option<Vec<u8>>, AllocError>
    requires with { filler.old.with ≡ key_template filler.old.pattern }
    ensures same { filler.new ≡ filler.old }
    ensures key { IfOk result (λ key. option_map (λ bytes. bytes.items) key ≡ found_key filler.old.pattern text.now) }
    ensures short { IfOk result (λ key. IfSome key (λ bytes. length bytes.items ≤ length text.now)) }
{
    match filler.next(alloc, text, 0, text.len())? {
        None => Ok(None),
        Some((Rewritten::New(key), _)) => Ok(Some(key)),
        Some((Rewritten::TooLong(_), _)) => unreachable!(),
        Some((Rewritten::Same, _)) => unreachable!(),
    }
}

impl Key {
    /// The whole text.
    pub fn whole() -> Key
        ensures { result ≡ None }
    {
        Key { filler: None }
    }

    /// What this pattern finds. One whose program has more than some 10 MiB finds no memory.
    pub fn found(alloc: Global, pattern: &[u8]) -> Result<Key, AllocError>
        requires pattern { IsPattern pattern.now }
        ensures { IfOk result (λ key. key ≡ Some pattern.now) }
    {
        let filler = filler_for(alloc, pattern)?;
        let filler = Box::new(alloc, filler)?;
        Ok(Key {
            filler: Some(filler),
        })
    }

    /// The key of a text, if it has one. Takes memory for it.
    pub fn of(&mut self, alloc: Global, text: &[u8]) -> Result<Option<Vec<u8>>, AllocError>
        ensures same { self.new ≡ self.old }
        ensures key { IfOk result (λ key. option_map (λ bytes. bytes.items) key ≡ key_of self.old text.now) }
        ensures short { IfOk result (λ key. IfSome key (λ bytes. length bytes.items ≤ length text.now)) }
    {
        match &mut self.filler {
            None => Ok(Some(text.to_vec(alloc)?)),
            Some(filler) => find(filler, alloc, text),
        }
    }
}
