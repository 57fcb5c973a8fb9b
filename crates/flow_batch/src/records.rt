//! Records: a key, a sign and an amount; and what each makes of the balance of its key.

ghost use Rattle.flow_batch.specs.declared.TheConstants.{AMOUNT_LIMIT};
ghost use Rattle.std.specs.Prelude.{◌≡◌, ◌≤◌, ◌++◌, ◌∷◌, IfOk};
ghost use Rattle.std.specs.Fmt.{decimal as decimal_of};
ghost use Rattle.std.specs.Option.{IfSome};
ghost use Rattle.flow_batch.specs.Records.{amount_in, set_to, adds, takes, erases, signed as signed_so, behind_key, posted as posted_so, HasAmount, IsKeyed};

use crate::AMOUNT_LIMIT;
use flow_text::decimal;
use std::alloc::{AllocError, Global};

/// What becomes of a record: it is applied, and leaves this balance, which may be none; or it is refused.
#[derive(Clone, Copy, Debug, PartialEq, Eq)]
pub enum Posting {
    Applied(Option<u64>),
    Refused,
}

// The amount that the bytes spell.
fn amount(bytes: &[u8]) -> Option<u64>
    ensures value { result ≡ amount_in bytes.now }
    ensures most { IfSome result (λ n. n ≤ AMOUNT_LIMIT) }
{
    decimal(bytes, 0, AMOUNT_LIMIT)
}

fn set(balance: Option<u64>, amount: u64) -> Posting
    ensures { result ≡ set_to balance amount }
{
    match balance {
        None => Posting::Applied(Some(amount)),
        Some(_) => Posting::Refused,
    }
}

fn add(balance: Option<u64>, amount: u64) -> Posting
    requires balance { IfSome balance (λ n. n ≤ AMOUNT_LIMIT) }
    requires amount { amount ≤ AMOUNT_LIMIT }
    ensures { result ≡ adds balance amount }
{
    let Some(balance) = balance else {
        return Posting::Refused;
    };
    let sum = balance + amount;
    if sum <= AMOUNT_LIMIT {
        return Posting::Applied(Some(sum));
    }
    Posting::Refused
}

fn take(balance: Option<u64>, amount: u64) -> Posting
    ensures { result ≡ takes balance amount }
{
    let Some(balance) = balance else {
        return Posting::Refused;
    };
    if amount <= balance {
        return Posting::Applied(Some(balance - amount));
    }
    Posting::Refused
}

fn erase(balance: Option<u64>, amount: u64) -> Posting
    ensures { result ≡ erases balance amount }
{
    let Some(balance) = balance else {
        return Posting::Refused;
    };
    if balance == amount {
        return Posting::Applied(None);
    }
    Posting::Refused
}

// What a record with this sign and amount makes of a balance.
fn signed(sign: u8, balance: Option<u64>, amount: u64) -> Posting
    requires balance { IfSome balance (λ n. n ≤ AMOUNT_LIMIT) }
    requires amount { amount ≤ AMOUNT_LIMIT }
    ensures { result ≡ signed_so sign balance amount }
{
    if sign == b'M' || sign == b'N' {
        return set(balance, amount);
    }
    if sign == b'+' {
        return add(balance, amount);
    }
    if sign == b'-' {
        return take(balance, amount);
    }
    if sign == b'X' {
        return erase(balance, amount);
    }
    Posting::Refused
}

// What the text behind the key makes of a balance.
fn behind(rest: &[u8], balance: Option<u64>) -> Posting
    requires { IfSome balance (λ n. n ≤ AMOUNT_LIMIT) }
    ensures { result ≡ behind_key rest.now balance }
{
    let Some((sign, digits)) = rest.split_first() else {
        return Posting::Refused;
    };
    let Some(amount) = amount(digits) else {
        return Posting::Refused;
    };
    signed(*sign, balance, amount)
}

/// What a text makes of the balance of a key: it is refused unless it begins with the key, in full length, and is a record.
pub fn posted(keylen: usize, key: &[u8], balance: Option<u64>, text: &[u8]) -> Posting
    requires { IfSome balance (λ n. n ≤ AMOUNT_LIMIT) }
    ensures posting { result ≡ posted_so keylen key.now balance text.now }
    ensures amount { HasAmount result }
    ensures keyed { IsKeyed keylen key.now result }
{
    if key.len() != keylen {
        return Posting::Refused;
    }
    let Some(rest) = text.strip_prefix(key) else {
        return Posting::Refused;
    };
    behind(rest, balance)
}

/// The new master of a key with an amount.
pub fn line(alloc: Global, key: &[u8], amount: u64) -> Result<Vec<u8>, AllocError>
    ensures { IfOk result (λ v. v.items ≡ key.now ++ 77 ∷ decimal_of amount) }
{
    let mut line = Vec::with_capacity(alloc, key.len() + 17)?;
    line.extend_from_slice(key)?;
    line.push(b'M')?;
    flow_text::put_decimal(&mut line, amount)?;
    Ok(line)
}
