ghost use Rattle.std.specs.Prelude.{◌≡◌, ◌<◌, ◌-◌, true, length, slice_index, EachIndex, OnOk};
ghost use Rattle.std.specs.List.{flat_map};
ghost use Rattle.session_script.specs.Script.{is_op};
ghost use Rattle.session_script.specs.declared.act.Bodies.TheVariants as bodies;
ghost use Rattle.session_script.specs.Spelling.{written, body_words, entry_words, branch_words, bodies_words};

use crate::act::{Bodies, bodies_of};
use crate::script::Script;
use crate::writer::act::{act_text, fields};
use crate::writer::word::word;
use asio_types::{ActNo, Class, NoMemory, OpNo};

/// A body with these acts. So many levels are left, this one among them.
#[cycle(bodies)]
pub(crate) fn body(
    script: &Script,
    levels: u32,
    acts: &[ActNo],
    out: &mut Vec<u8>,
) -> Result<(), NoMemory>
    requires { EachIndex acts.now (λ i. slice_index acts.now i < length script.now.acts) }
    ensures { OnOk result
        (out.new.items ≡ written out.old.items (body_words levels script.now acts.now)) }
{
    if levels == 0 {
        return Ok(());
    }
    word(b"{", out)?;
    entries(script, levels - 1, acts, out)?;
    word(b"}", out)
}

/// The acts of a body.
#[cycle(bodies)]
fn entries(script: &Script, levels: u32, acts: &[ActNo], out: &mut Vec<u8>) -> Result<(), NoMemory>
    requires { EachIndex acts.now (λ i. slice_index acts.now i < length script.now.acts) }
    ensures { OnOk result (out.new.items
        ≡ written out.old.items
        (flat_map (entry_words (body_words levels script.now) script.now) acts.now)) }
{
    'each_act: for a in acts {
        entry(script, levels, *a, out)?;
    }
    Ok(())
}

/// An act with its bodies.
#[cycle(bodies)]
fn entry(script: &Script, levels: u32, a: ActNo, out: &mut Vec<u8>) -> Result<(), NoMemory>
    requires { a < length script.now.acts }
    ensures { OnOk result (out.new.items
        ≡ written out.old.items (entry_words (body_words levels script.now) script.now a)) }
{
    let act = script.act(a);
    word(act_text(act), out)?;
    fields(act, out)?;
    match bodies_of(act) {
        Bodies::Nothing => Ok(()),
        Bodies::Posting => body(script, levels, script.branch(a, Class::Ok), out),
        Bodies::Operation => branches(script, levels, a, out),
    }
}

/// The bodies of an asynchronous operation.
#[cycle(bodies)]
fn branches(script: &Script, levels: u32, o: OpNo, out: &mut Vec<u8>) -> Result<(), NoMemory>
    requires in_range { o < length script.now.acts }
    requires operation { is_op script.now o ≡ true }
    ensures { OnOk result (out.new.items
        ≡ written out.old.items
        (bodies_words (body_words levels script.now) script.now o bodies.Operation)) }
{
    body(script, levels, script.branch(o, Class::Ok), out)?;
    branch(
        script,
        levels,
        b"abort",
        script.branch(o, Class::Abort),
        out,
    )?;
    branch(
        script,
        levels,
        b"other",
        script.branch(o, Class::Other),
        out,
    )
}

/// A further body after its word, unless it is empty.
#[cycle(bodies)]
fn branch(
    script: &Script,
    levels: u32,
    text: &[u8],
    acts: &[ActNo],
    out: &mut Vec<u8>,
) -> Result<(), NoMemory>
    requires { EachIndex acts.now (λ i. slice_index acts.now i < length script.now.acts) }
    ensures { OnOk result (out.new.items
        ≡ written out.old.items (branch_words (body_words levels script.now) text.now acts.now)) }
{
    if acts.is_empty() {
        return Ok(());
    }
    word(text, out)?;
    body(script, levels, acts, out)
}
