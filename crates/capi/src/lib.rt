// The calls from C (SCOPE 13, 20.7, 21.5, 22.9, 22.10, 24.9, 25.8, 25.9, 26.8 and 26.9).
#![tactic(auto)]

ghost use Rattle.std.specs.Prelude.{◌≡◌, List, ℕ, Some, length};
ghost use Rattle.answer.specs.Answers.{answer_number};
ghost use Rattle.answer.specs.Right.{NumberOfRight};
ghost use Rattle.pressure.specs.declared.Order.TheVariants.{PressureFirst};
ghost use Rattle.record.specs.declared.Ring.TheVariants.{Stress, Wind};
ghost use Rattle.cases.specs.Cases.{one_case};
ghost use Rattle.cases.specs.Numbers.{first_from, groups_from, inner_from, cases_from};
ghost use Rattle.cases.specs.Answering.{load_cases, count_of};
ghost use Rattle.record.specs.Limits.{record_of, with_inner};
ghost use Rattle.reading.specs.Answers.{RightLine};
ghost use Rattle.reading.specs.Answering.{answer_to};
ghost use Rattle.record.specs.Right.{Right};
ghost use Rattle.record.specs.Answering.{record_answer};
ghost use Rattle.writer.specs.Writing.{numbered, NumberOfWriting};
ghost use Rattle.writer.specs.Writer.{writing};
ghost use Rattle.plates.specs.Plates.{shell_of, forces_of, chosen_number, NumberOfChoice};
ghost use Rattle.plates.specs.Choosing.{plate_judgement, choosing};

use cases::{Cases, Groups, list_of};
use plates::{Forces, Shell, choose};
use pressure::Order;
use record::{Group, Record, Ring, Wall};
use writer::write;

// The wall of a call's numbers.
fn wall_from(r: u64, t: u64, l: u64, e: u64, fy: u64, edges: u64, a: u64, d: u64) -> Wall
    ensures { result ≡ (record_of r t l e fy edges a 0 (Stress 0) 0 d).wall }
{
    Wall {
        radius: r,
        thickness: t,
        length: l,
        modulus: e,
        yield_stress: fy,
        edges,
        imperfection: a,
        shortfall: d,
    }
}

// The record of a call's numbers, without a pressure inside.
fn record_from(
    r: u64,
    t: u64,
    l: u64,
    e: u64,
    fy: u64,
    edges: u64,
    a: u64,
    sx: u64,
    ring: Ring,
    tau: u64,
    d: u64,
) -> Record
    ensures { result ≡ record_of r t l e fy edges a sx ring tau d }
{
    let wall = wall_from(r, t, l, e, fy, edges, a, d);
    let group = Group {
        axial: sx,
        ring,
        shear: tau,
    };
    Record::of(wall, group)
}

// Puts the line of load cases at the start of `out`, and answers the number of the writer's answer.
fn write_cases(out: &mut [u8], c: &Cases) -> u64
    ensures number_of_writing { NumberOfWriting (load_cases c.now) out.old out.new result }
    ensures fact { ◌≡◌ {A = ℕ × List ℕ} (result, out.new) (numbered (writing (load_cases c.now) out.old)) }
{
    writer::number(write(out, c))
}

// The same of a record.
fn write_record(out: &mut [u8], c: Record) -> u64
    ensures number_of_writing { NumberOfWriting (one_case c) out.old out.new result }
    ensures fact { ◌≡◌ {A = ℕ × List ℕ} (result, out.new) (numbered (writing (one_case c) out.old)) }
{
    write_cases(out, &Cases::of_record(c))
}

// The numbers of a line, but the shortfall last, and the number of the answer. Nothing is changed.
#[unsafe(no_mangle)]
pub extern "C" fn shell_judge(
    r: u64,
    t: u64,
    l: u64,
    e: u64,
    fy: u64,
    edges: u64,
    a: u64,
    sx: u64,
    sphi: u64,
    tau: u64,
    d: u64,
) -> u64
    ensures value { result ≡ answer_number (record_answer PressureFirst (record_of r t l e fy edges a sx (Stress sphi) tau d)) }
    ensures number_of_right { NumberOfRight (Right PressureFirst (record_of r t l e fy edges a sx (Stress sphi) tau d)) result }
{
    let given = record_from(r, t, l, e, fy, edges, a, sx, Ring::Stress(sphi), tau, d);
    answer::number(Record::judge(given.wall, given.group))
}

// The same numbers, and the number of the writer's answer: the line is put at the start of `out`, or nothing is changed.
#[unsafe(no_mangle)]
pub extern "C" fn shell_write(
    out: &mut [u8],
    r: u64,
    t: u64,
    l: u64,
    e: u64,
    fy: u64,
    edges: u64,
    a: u64,
    sx: u64,
    sphi: u64,
    tau: u64,
    d: u64,
) -> u64
    ensures number_of_writing { NumberOfWriting (one_case (record_of r t l e fy edges a sx (Stress sphi) tau d)) out.old out.new result }
    ensures fact { ◌≡◌ {A = ℕ × List ℕ} (result, out.new) (numbered (writing (one_case (record_of r t l e fy edges a sx (Stress sphi) tau d)) out.old)) }
{
    let c = record_from(r, t, l, e, fy, edges, a, sx, Ring::Stress(sphi), tau, d);
    write_record(out, c)
}

// The same with w and v of wind in the place of the ring stress.
#[unsafe(no_mangle)]
pub extern "C" fn shell_write_wind(
    out: &mut [u8],
    r: u64,
    t: u64,
    l: u64,
    e: u64,
    fy: u64,
    edges: u64,
    a: u64,
    sx: u64,
    w: u64,
    v: u64,
    tau: u64,
    d: u64,
) -> u64
    ensures number_of_writing { NumberOfWriting (one_case (record_of r t l e fy edges a sx (Wind w v) tau d)) out.old out.new result }
    ensures fact { ◌≡◌ {A = ℕ × List ℕ} (result, out.new) (numbered (writing (one_case (record_of r t l e fy edges a sx (Wind w v) tau d)) out.old)) }
{
    let c = record_from(r, t, l, e, fy, edges, a, sx, Ring::Wind(w, v), tau, d);
    write_record(out, c)
}

// A shell without thickness, shortfall and stresses, three line forces and a list of plates, and the number of the choice. Nothing is changed.
#[unsafe(no_mangle)]
pub extern "C" fn shell_choose_plate(
    plates: &[u64],
    r: u64,
    l: u64,
    e: u64,
    fy: u64,
    edges: u64,
    a: u64,
    nx: u64,
    nphi: u64,
    nxphi: u64,
) -> u64
    ensures value { result ≡ chosen_number (choosing (shell_of r l e fy edges a) (forces_of nx nphi nxphi) plates.now) }
    ensures number_of_choice { NumberOfChoice plate_judgement (shell_of r l e fy edges a) (forces_of nx nphi nxphi) plates.now result }
{
    let s = Shell {
        radius: r,
        length: l,
        modulus: e,
        yield_stress: fy,
        edges,
        imperfection: a,
    };
    let f = Forces {
        axial: nx,
        ring: nphi,
        shear: nxphi,
    };
    plates::number(choose(s, f, plates))
}

// The bytes of one line, and the number of the answer to it. Nothing is changed.
#[unsafe(no_mangle)]
pub extern "C" fn shell_judge_line(line: &[u8]) -> u64
    ensures value { result ≡ answer_number (answer_to PressureFirst line.now) }
    ensures number_of_right { NumberOfRight (RightLine PressureFirst line.now) result }
{
    answer::number(sheet::answer(line, Order::PressureFirst))
}

// As shell_write, with a pressure of p inside.
#[unsafe(no_mangle)]
pub extern "C" fn shell_write_inner(
    out: &mut [u8],
    r: u64,
    t: u64,
    l: u64,
    e: u64,
    fy: u64,
    edges: u64,
    a: u64,
    sx: u64,
    sphi: u64,
    tau: u64,
    d: u64,
    p: u64,
) -> u64
    ensures number_of_writing { NumberOfWriting (one_case (with_inner (Some p) (record_of r t l e fy edges a sx (Stress sphi) tau d))) out.old out.new result }
    ensures fact { ◌≡◌ {A = ℕ × List ℕ} (result, out.new) (numbered (writing (one_case (with_inner (Some p) (record_of r t l e fy edges a sx (Stress sphi) tau d))) out.old)) }
{
    let bare = record_from(r, t, l, e, fy, edges, a, sx, Ring::Stress(sphi), tau, d);
    write_record(out, bare.under(Some(p)))
}

// As shell_write_wind, with a pressure of p inside.
#[unsafe(no_mangle)]
pub extern "C" fn shell_write_wind_inner(
    out: &mut [u8],
    r: u64,
    t: u64,
    l: u64,
    e: u64,
    fy: u64,
    edges: u64,
    a: u64,
    sx: u64,
    w: u64,
    v: u64,
    tau: u64,
    d: u64,
    p: u64,
) -> u64
    ensures number_of_writing { NumberOfWriting (one_case (with_inner (Some p) (record_of r t l e fy edges a sx (Wind w v) tau d))) out.old out.new result }
    ensures fact { ◌≡◌ {A = ℕ × List ℕ} (result, out.new) (numbered (writing (one_case (with_inner (Some p) (record_of r t l e fy edges a sx (Wind w v) tau d))) out.old)) }
{
    let bare = record_from(r, t, l, e, fy, edges, a, sx, Ring::Wind(w, v), tau, d);
    write_record(out, bare.under(Some(p)))
}

// The pressure inside, or none where there is no group for it: a flag and a value, as the C interface has them.
fn inner_of(has: u64, p: u64) -> Option<u64>
    ensures { result ≡ inner_from has p }
{
    if has == 0 {
        return None;
    }
    Some(p)
}

// The load cases of a list of numbers, none where it is no list of them: the writer looks at the room first, and then refuses none.
fn groups_of(numbers: &[u64]) -> Groups
    ensures { result ≡ first_from numbers.now (count_of (length numbers.now)) }
{
    list_of(numbers).unwrap_or(Groups::new())
}

// A wall, load cases as a list of five numbers each, a pressure where has is not 0, and the number of the writer's answer: as shell_write.
#[unsafe(no_mangle)]
pub extern "C" fn shell_write_cases(
    out: &mut [u8],
    groups: &[u64],
    r: u64,
    t: u64,
    l: u64,
    e: u64,
    fy: u64,
    edges: u64,
    a: u64,
    d: u64,
    has: u64,
    p: u64,
) -> u64
    ensures number_of_writing { NumberOfWriting (cases_from r t l e fy edges a d (groups_from groups.now) (inner_from has p)) out.old out.new result }
    ensures fact { ◌≡◌ {A = ℕ × List ℕ} (result, out.new) (numbered (writing (cases_from r t l e fy edges a d (groups_from groups.now) (inner_from has p)) out.old)) }
{
    let c = Cases {
        wall: wall_from(r, t, l, e, fy, edges, a, d),
        groups: groups_of(groups),
        inner: inner_of(has, p),
    };
    write_cases(out, &c)
}
