//! A kind of the caller's own with options: a process has the texts that its network gives them, at the places of their
//! ports, and a text that an option doesn't take refuses the network.
ghost use Rattle.std.specs.Prelude.{◌≡◌, ◌∷◌, [], IfOk, codes, true, false};
ghost use Rattle.flow_line_kind.specs.Kind.{line_kind_with, option};
ghost use Rattle.flow_offer.specs.Kinds.{AreOwnKinds};

use flow_expand::{ExpandStop, expand, put_fault};
use flow_items::Text;
use flow_line_kind::{line_kind_with, option};
use flow_offer::{copies, own_kinds_make_a_table, table};
use flow_parse::parse;
use flow_plan::{KindSpec, Plan, PortClass};
use std::alloc::{AllocError, Global};
use std::test::Fail;

// A kind that may have a width, and needs a text and a pattern.
fn cut(alloc: Global) -> Result<KindSpec, AllocError>
    ensures { IfOk result (λ kind. kind ≡ line_kind_with (codes "Cut") (option (codes "WIDTH") (PortClass.Number 1 80) false ∷ option (codes "BY") PortClass.Text true ∷ option (codes "KEY") PortClass.Pattern true ∷ [])) }
{
    let width = option(
        alloc,
        b"WIDTH",
        PortClass::Number { least: 1, most: 80 },
        false,
    )?;
    let by = option(alloc, b"BY", PortClass::Text, true)?;
    let key = option(alloc, b"KEY", PortClass::Pattern, true)?;
    line_kind_with(alloc, b"Cut", vec![in alloc; width, by, key]?)
}

fn own(alloc: Global) -> Result<Vec<KindSpec>, AllocError>
    ensures { IfOk result (λ own. AreOwnKinds own.items) }
{
    let cut = cut(alloc)?;
    Ok(vec![in alloc; cut]?)
}

// What a network with the kind comes to: its plan, or the words of its fault.
fn planned(alloc: Global, net: &[u8]) -> Result<Result<Plan, Vec<u8>>, Fail> {
    let own = own(alloc)?;
    own_kinds_make_a_table();
    let table = table(alloc, &own)?;
    let text = match parse(alloc, net) {
        Ok(text) => text,
        Err(_) => return Err("the file is refused".into()),
    };
    match expand(alloc, &text, table) {
        Ok(plan) => Ok(Ok(plan)),
        Err(ExpandStop::Fault(fault)) => {
            let mut words = Vec::new(alloc);
            put_fault(&mut words, &fault)?;
            Ok(Err(words))
        }
        Err(ExpandStop::NoMemory) => Err("no memory".into()),
    }
}

fn plan_of(alloc: Global, net: &[u8]) -> Result<Plan, Fail> {
    match planned(alloc, net)? {
        Ok(plan) => Ok(plan),
        Err(_) => Err("the network is refused".into()),
    }
}

// Whether a network is refused with these words.
fn is_refused(alloc: Global, net: &[u8], words: &[u8]) -> Result<bool, Fail> {
    match planned(alloc, net)? {
        Ok(_) => Ok(false),
        Err(told) => Ok(told.as_slice() == words),
    }
}

// Whether the option at this place has this text.
fn has(options: &[(u32, Text)], place: u32, text: &[u8]) -> bool {
    options
        .iter()
        .any(|option| option.0 == place && option.1.as_slice() == text)
}

// The first process is of the kind, and the second of a standard one.
const WHOLE: &[u8] =
    b"flow 1\n'one' -> IN C(Cut)\nC OUT -> IN D(Discard)\n'a+' -> KEY C\n', ' -> BY C\n'80' -> WIDTH C\n";

const WITHOUT_WIDTH: &[u8] =
    b"flow 1\n'one' -> IN C(Cut)\nC OUT -> IN D(Discard)\n'a+' -> KEY C\n', ' -> BY C\n";

const WITHOUT_BY: &[u8] =
    b"flow 1\n'one' -> IN C(Cut)\nC OUT -> IN D(Discard)\n'a+' -> KEY C\n'80' -> WIDTH C\n";

const TOO_WIDE: &[u8] =
    b"flow 1\n'one' -> IN C(Cut)\nC OUT -> IN D(Discard)\n'a+' -> KEY C\n', ' -> BY C\n'81' -> WIDTH C\n";

const NO_PATTERN: &[u8] =
    b"flow 1\n'one' -> IN C(Cut)\nC OUT -> IN D(Discard)\n'(' -> KEY C\n', ' -> BY C\n";

const TWICE: &[u8] =
    b"flow 1\n'one' -> IN C(Cut)\nC OUT -> IN D(Discard)\n'a+' -> KEY C\n', ' -> BY C\n'; ' -> BY C\n";

const CONNECTED: &[u8] = b"flow 1\n'one' -> IN C(Cut)\nC OUT -> BY C\n'a+' -> KEY C\n";

#[test]
fn a_process_has_the_texts_of_its_options(rt: HostRuntime) -> Result<(), Fail> {
    let alloc = rt.alloc();
    let plan = plan_of(alloc, WHOLE)?;
    let processes = plan.processes();
    if processes.len() == 2 {
        let options = processes[0].options.as_slice();
        assert_eq!(rt; options.len(), 3);
        assert!(rt; has(options, 0, b"80"));
        assert!(rt; has(options, 1, b", "));
        assert!(rt; has(options, 2, b"a+"));
        assert_eq!(rt; processes[0].inputs, 1);
        assert_eq!(rt; processes[1].options.as_slice().len(), 0);
        return Ok(());
    }
    Err("the plan has another number of processes".into())
}

#[test]
fn an_option_that_is_not_needed_may_be_left_out(rt: HostRuntime) -> Result<(), Fail> {
    let alloc = rt.alloc();
    let plan = plan_of(alloc, WITHOUT_WIDTH)?;
    let processes = plan.processes();
    if processes.len() == 2 {
        let options = processes[0].options.as_slice();
        assert_eq!(rt; options.len(), 2);
        assert!(rt; has(options, 1, b", "));
        assert!(rt; has(options, 2, b"a+"));
        return Ok(());
    }
    Err("the plan has another number of processes".into())
}

#[test]
fn a_text_that_an_option_does_not_take_is_refused(rt: HostRuntime) -> Result<(), Fail> {
    let alloc = rt.alloc();
    assert!(rt; is_refused(alloc, WITHOUT_BY, b"port missing C.BY")?);
    assert!(rt; is_refused(alloc, TOO_WIDE, b"bad option C.WIDTH")?);
    assert!(rt; is_refused(alloc, NO_PATTERN, b"bad option C.KEY")?);
    assert!(rt; is_refused(alloc, TWICE, b"port taken C.BY")?);
    assert!(rt; is_refused(alloc, CONNECTED, b"needs initial C.BY")?);
    Ok(())
}

#[test]
fn copies_of_kinds_have_their_options(rt: HostRuntime) -> Result<(), Fail> {
    let alloc = rt.alloc();
    let own = own(alloc)?;
    let copied = copies(alloc, &own)?;
    assert_eq!(rt; copied.len(), 1);
    match copied.first() {
        Some(kind) => assert_eq!(rt; kind.inputs.len(), 4),
        None => return Err("there is no copy".into()),
    }
    Ok(())
}
