//! The options of a drawing that stand in the boxes of their processes.
ghost use Rattle.std.specs.Prelude.{◌≡◌, ◌++◌, ◌∷◌, [], IfOk, OnOk};
ghost use Rattle.std.specs.List.{flat_map};
ghost use Rattle.flow_drawing.specs.Drawings.{is_writer, option_at, option_name, setting_of, settings_of};

use crate::drawing::Setting;
use flow_items::{Items, Text};
use flow_plan::{KindSpec, Process};
use std::alloc::{AllocError, Global};

// The name of the input port at this place of a kind. One that isn't there has no bytes as its name; a plan over the table names none.
fn option_at(kind: &KindSpec, place: u32) -> &[u8]
    ensures { result.now ≡ option_at kind.now place }
{
    match kind.inputs.as_slice().get(place as usize) {
        Some(port) => port.name.as_slice(),
        None => b"",
    }
}

/// The name of the option port at this place of the kind of this name.
pub fn option_name<'a>(kinds: &'a [KindSpec], name: &[u8], place: u32) -> &'a [u8]
    ensures { result.now ≡ option_name kinds.now name.now place }
{
    for kind in kinds {
        let same = kind.name.as_slice() == name;
        if same {
            return option_at(kind, place);
        }
    }
    b""
}

/// Whether a process of this kind writes a file, which its option names.
pub fn is_writer(kind: &[u8]) -> bool
    ensures { result ≡ is_writer kind.now }
{
    let writer: &[u8] = b"WriteLines";
    kind == writer
}

// An option of a process of this kind.
fn setting_of(
    alloc: Global,
    kinds: &[KindSpec],
    kind: &[u8],
    option: &(u32, Text),
) -> Result<Setting, AllocError>
    ensures { IfOk result (λ setting. setting ∷ [] ≡ setting_of kinds.now kind.now option.now) }
{
    let name = option_name(kinds, kind, option.0);
    Ok(Setting {
        port: Text::from_slice(alloc, name)?,
        text: option.1.copy(alloc)?,
    })
}

// Adds these options of a process of this kind.
fn put_options(
    alloc: Global,
    settings: &mut Items<Setting>,
    kinds: &[KindSpec],
    kind: &[u8],
    options: &[(u32, Text)],
) -> Result<(), AllocError>
    ensures { OnOk result (settings.new ≡ settings.old ++ flat_map (setting_of kinds.now kind.now) options.now) }
{
    for option in options {
        let setting = setting_of(alloc, kinds, kind, option)?;
        settings.push(setting)?;
    }
    Ok(())
}

/// The options that stand in the box of a process: all but the file of a writer, which stands behind it.
pub fn settings_of(
    alloc: Global,
    kinds: &[KindSpec],
    process: &Process,
) -> Result<Items<Setting>, AllocError>
    ensures { IfOk result (λ settings. settings ≡ settings_of kinds.now process.now) }
{
    let mut settings = Items::new(alloc);
    let kind = process.kind.as_slice();
    if is_writer(kind) {
        return Ok(settings);
    }
    let options = process.options.as_slice();
    put_options(alloc, &mut settings, kinds, kind, options)?;
    Ok(settings)
}
