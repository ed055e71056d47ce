// The text of a step: the rule, and the rows, positions and names that it takes.
ghost use Rattle.std.specs.Prelude.{◌≡◌, ◌++◌, OnOk, codes, decimal, map, string_bytes};
ghost use Rattle.syn_form.specs.Printing.{joined};
ghost use Rattle.syn_start.specs.declared.steps.Origin.TheVariants as origin;
ghost use Rattle.syn_start.specs.declared.steps.Step.TheVariants as step;
ghost use Rattle.syn_deriv.specs.DerivationLines as lines;
ghost use Rattle.syn_deriv.specs.PrintedDerivation.{origin_text, position_text, positions_text, step_text, used_text};

use syn_expr::{put, put_number, separator};
use syn_row::Dir;
use syn_start::{Origin, Step};
use syn_term::{NoMemory, Pos};

/// Puts the numbers with full stops between.
fn put_dotted(out: &mut String, steps: &[u32]) -> Result<(), NoMemory>
    ensures { OnOk result (string_bytes out.new ≡ string_bytes out.old ++ joined (codes ".") (map decimal steps.now)) }
{
    for i in 0..steps.len() {
        put(out, separator(i, "."))?;
        put_number(out, steps[i])?;
    }
    Ok(())
}

/// Puts the numbers of a position: `-` where there are none.
fn put_steps(out: &mut String, steps: &[u32]) -> Result<(), NoMemory>
    ensures { OnOk result (string_bytes out.new ≡ string_bytes out.old ++ position_text steps.now) }
{
    match steps {
        [] => put(out, "-"),
        [_, ..] => put_dotted(out, steps),
    }
}

/// Puts the positions with commas between.
fn put_positions(out: &mut String, positions: &[Pos]) -> Result<(), NoMemory>
    ensures { OnOk result (string_bytes out.new ≡ string_bytes out.old ++ positions_text positions.now) }
{
    for (i, position) in positions.iter().enumerate() {
        put(out, separator(i, ","))?;
        put_steps(out, position.as_slice())?;
    }
    Ok(())
}

/// The direction as it is written.
fn direction(dir: Dir) -> &'static str
    ensures { result.now ≡ lines.direction dir }
{
    match dir {
        Dir::Lr => "lr",
        Dir::Rl => "rl",
    }
}

/// `N POS`.
fn put_row_position(out: &mut String, row: u32, at: &Pos) -> Result<(), NoMemory>
    ensures { OnOk result (string_bytes out.new ≡ string_bytes out.old ++ (decimal row ++ codes " " ++ position_text at.now)) }
{
    put_number(out, row)?;
    put(out, " ")?;
    put_steps(out, at.as_slice())
}

/// `N POS,..`.
fn put_row_positions(out: &mut String, row: u32, at: &[Pos]) -> Result<(), NoMemory>
    ensures { OnOk result (string_bytes out.new ≡ string_bytes out.old ++ (decimal row ++ codes " " ++ positions_text at.now)) }
{
    put_number(out, row)?;
    put(out, " ")?;
    put_positions(out, at)
}

/// ` lr `, or with `rl`.
fn put_direction(out: &mut String, dir: Dir) -> Result<(), NoMemory>
    ensures { OnOk result (string_bytes out.new ≡ string_bytes out.old ++ (codes " " ++ lines.direction dir ++ codes " ")) }
{
    put(out, " ")?;
    put(out, direction(dir))?;
    put(out, " ")
}

/// `N POS lr N POS`.
fn put_used(
    out: &mut String,
    first: u32,
    at: &Pos,
    dir: Dir,
    second: u32,
    place: &Pos,
) -> Result<(), NoMemory>
    ensures { OnOk result (string_bytes out.new ≡ string_bytes out.old ++ used_text first at.now dir second place.now) }
{
    put_row_position(out, first, at)?;
    put_direction(out, dir)?;
    put_row_position(out, second, place)
}

/// `axiom NAME`.
fn put_axiom(out: &mut String, name: &str) -> Result<(), NoMemory>
    ensures { OnOk result (string_bytes out.new ≡ string_bytes out.old ++ origin_text (origin.Axiom name.now)) }
{
    put(out, "axiom ")?;
    put(out, name)
}

/// `def NAME K`.
fn put_def(out: &mut String, name: &str, clause: u32) -> Result<(), NoMemory>
    ensures { OnOk result (string_bytes out.new ≡ string_bytes out.old ++ origin_text (origin.Def name.now clause)) }
{
    put(out, "def ")?;
    put(out, name)?;
    put(out, " ")?;
    put_number(out, clause)
}

/// The rule of an initial row.
fn put_origin(out: &mut String, origin: &Origin) -> Result<(), NoMemory>
    ensures { OnOk result (string_bytes out.new ≡ string_bytes out.old ++ origin_text origin.now) }
{
    match origin {
        Origin::Goal => put(out, "goal"),
        Origin::Input => put(out, "input"),
        Origin::Axiom(name) => put_axiom(out, name.as_str()),
        Origin::Def { name, clause } => put_def(out, name.as_str(), *clause),
        Origin::Induct => put(out, "induct"),
    }
}

/// `split N I`.
fn put_split(out: &mut String, row: u32, member: u32) -> Result<(), NoMemory>
    ensures { OnOk result (string_bytes out.new ≡ string_bytes out.old ++ step_text (step.Split row member)) }
{
    put(out, "split ")?;
    put_number(out, row)?;
    put(out, " ")?;
    put_number(out, member)
}

/// `dual N`.
fn put_dual(out: &mut String, row: u32) -> Result<(), NoMemory>
    ensures { OnOk result (string_bytes out.new ≡ string_bytes out.old ++ step_text (step.Dual row)) }
{
    put(out, "dual ")?;
    put_number(out, row)
}

/// `reflex N POS`.
fn put_reflex(out: &mut String, row: u32, at: &Pos) -> Result<(), NoMemory>
    ensures { OnOk result (string_bytes out.new ≡ string_bytes out.old ++ step_text (step.Reflex row at.now)) }
{
    put(out, "reflex ")?;
    put_row_position(out, row, at)
}

/// `resolve N POS,.. N POS,..`.
fn put_resolve(
    out: &mut String,
    first: u32,
    ps: &[Pos],
    second: u32,
    qs: &[Pos],
) -> Result<(), NoMemory>
    ensures { OnOk result (string_bytes out.new ≡ string_bytes out.old ++ step_text (step.Resolve first ps.now second qs.now)) }
{
    put(out, "resolve ")?;
    put_row_positions(out, first, ps)?;
    put(out, " ")?;
    put_row_positions(out, second, qs)
}

/// `equal N POS lr N POS`.
fn put_equal(
    out: &mut String,
    first: u32,
    at: &Pos,
    dir: Dir,
    second: u32,
    place: &Pos,
) -> Result<(), NoMemory>
    ensures { OnOk result (
        string_bytes out.new ≡ string_bytes out.old ++ step_text (step.Equal first at.now dir second place.now)) }
{
    put(out, "equal ")?;
    put_used(out, first, at, dir, second, place)
}

/// `relate N POS lr N POS`.
fn put_relate(
    out: &mut String,
    first: u32,
    at: &Pos,
    dir: Dir,
    second: u32,
    place: &Pos,
) -> Result<(), NoMemory>
    ensures { OnOk result (
        string_bytes out.new ≡ string_bytes out.old ++ step_text (step.Relate first at.now dir second place.now)) }
{
    put(out, "relate ")?;
    put_used(out, first, at, dir, second, place)
}

/// The rule of a row, with what it takes. The one error is want of memory.
pub(crate) fn put_step(out: &mut String, step: &Step) -> Result<(), NoMemory>
    ensures { OnOk result (string_bytes out.new ≡ string_bytes out.old ++ step_text step.now) }
{
    match step {
        Step::Start(origin) => put_origin(out, origin),
        Step::Split { row, member } => put_split(out, *row, *member),
        Step::Dual { row } => put_dual(out, *row),
        Step::Reflex { row, at } => put_reflex(out, *row, at),
        Step::Resolve {
            first,
            ps,
            second,
            qs,
        } => put_resolve(out, *first, ps.as_slice(), *second, qs.as_slice()),
        Step::Equal {
            first,
            at,
            dir,
            second,
            place,
        } => put_equal(out, *first, at, *dir, *second, place),
        Step::Relate {
            first,
            at,
            dir,
            second,
            place,
        } => put_relate(out, *first, at, *dir, *second, place),
    }
}
