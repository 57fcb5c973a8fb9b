//! The page of the standard kinds, and what stands behind it of a caller's own.
ghost use Rattle.std.specs.Prelude.{◌≡◌, ◌++◌, IfOk, OnOk};
ghost use Rattle.flow_catalogue.specs.Kinds.{spec_of};
ghost use Rattle.std.specs.List.{flat_map};
ghost use Rattle.flow_kinds.specs.Page.{IsRow, described, kind_lines, kinds_page, own_lines};

use crate::port::{Side, put_ports};
use crate::purpose::{own_purpose, purpose};
use flow_catalogue::{StdKind, kinds};
use flow_plan::KindSpec;
use std::alloc::{AllocError, Global};

/// The page of the standard kinds, made from the table by which networks are read.
pub fn kinds_page(alloc: Global) -> Result<Vec<u8>, AllocError>
    ensures { IfOk result (λ page. page.items ≡ kinds_page) }
{
    let table = kinds(alloc)?;
    let mut page = Vec::new(alloc);
    for spec in &table {
        put_kind(&mut page, kind_of(spec), spec)?;
    }
    Ok(page)
}

// The kind of a row of the table.
fn kind_of(spec: &KindSpec) -> StdKind
    requires { IsRow spec.now }
    ensures { spec.now ≡ spec_of result }
{
    match StdKind::named(spec.name.as_slice()) {
        Some(kind) => kind,
        None => unreachable!(),
    }
}

// Appends the lines of a standard kind with these ports.
fn put_kind(page: &mut Vec<u8>, kind: StdKind, spec: &KindSpec) -> Result<(), AllocError>
    ensures { OnOk result (page.new.items ≡ page.old.items ++ kind_lines kind spec.now) }
{
    put_described(page, purpose(kind), spec)
}

/// Appends the lines of kinds of the caller's own.
pub fn put_own_kinds(page: &mut Vec<u8>, own: &[KindSpec]) -> Result<(), AllocError>
    ensures { OnOk result (page.new.items ≡ page.old.items ++ flat_map own_lines own.now) }
{
    for spec in own {
        put_described(page, own_purpose(), spec)?;
    }
    Ok(())
}

// Appends the lines of a kind of which this is said.
fn put_described(page: &mut Vec<u8>, words: &[u8], spec: &KindSpec) -> Result<(), AllocError>
    ensures { OnOk result (page.new.items ≡ page.old.items ++ described words.now spec.now) }
{
    page.extend_from_slice(spec.name.as_slice())?;
    page.extend_from_slice(b": ")?;
    page.extend_from_slice(words)?;
    page.push(10)?;
    put_ports(page, Side::Input, spec.inputs.as_slice())?;
    put_ports(page, Side::Output, spec.outputs.as_slice())
}
