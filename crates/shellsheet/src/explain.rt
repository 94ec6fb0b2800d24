// --explain: the answers to a sheet in words. Each answer is that of `sheet::answer`, which the listing has too; the words decide nothing.
use crate::checks::{say_check, say_own};
use crate::form::say_form;
use crate::say::{Decimal, Words};
use answer::{Judgement, Refusal};
use cases::Cases;
use line_bounds::Gain;
use lines::Lines;
use listing::Counts;
use outcome::{BYTES_MOST, LINES_MOST, ROOM};
use pressure::Order;
use reading::read;
use record::{Group, Record, Ring};
use std::io;

// A bound of 2 or more is no upper bound: a sum over 2 has it too.
const SUM_MOST: u64 = 2 * Decimal::ONE;

// Below so many kN/m², 1 N/mm², the stresses of a shell look as if they were typed in N/mm².
const STRESS_LOW: u64 = 1000;

// Below so many N/m² a gust pressure looks as if it were typed in kN/m².
const GUST_LOW: u64 = 100;

// The sum by its bounds.
fn say_sum(rt: &impl Print, j: Judgement) -> io::Result<()> {
    let low = Decimal(j.low);
    let high = Decimal(j.high);
    if SUM_MOST <= j.high {
        print!(rt; ": the sum is {low} or more")
    } else if j.low == j.high {
        print!(rt; ": the sum is {low}")
    } else {
        print!(rt; ": the sum is from {low} to {high}")
    }
}

// The whole ring stress that wind is turned into, with a remark on the unit of the gust pressure where it looks mistaken; nothing of a plain one.
fn say_wind_stress(rt: &impl Print, c: Record) -> io::Result<()> {
    let Ring::Wind(gust, _) = c.group.ring else {
        return Ok(());
    };
    let stress = c.ring_stress();
    print!(rt; "; the wind makes a ring stress of {stress} kN/m2")?;
    if (1..GUST_LOW).contains(&gust) {
        print!(rt; "; w is below {GUST_LOW} N/m2, and 1 kN/m2 is 1000 N/m2: is it in N/m2?")?;
    }
    Ok(())
}

// Whether stresses look as if they were typed in N/mm²: not all are 0, and all are low.
fn looks_mistaken(stresses: &[u64]) -> bool {
    stresses.iter().any(|s| *s != 0) && stresses.iter().all(|s| *s < STRESS_LOW)
}

// The remark on units, where the stresses look mistaken; wind is typed in N/m².
fn say_units(rt: &impl Print, g: Group) -> io::Result<()> {
    let (mistaken, typed) = match g.ring {
        Ring::Stress(ring) => (looks_mistaken(&[g.axial, ring, g.shear]), "all stresses"),
        Ring::Wind(_, _) => (looks_mistaken(&[g.axial, g.shear]), "sx and tau"),
    };
    if mistaken {
        print!(rt; "; {typed} are below 1 N/mm2, and 1 N/mm2 is 1000 kN/m2: are they in kN/m2?")?;
    }
    Ok(())
}

// The size of a gain to four digits, by its added part in 10⁻⁸: 1 and 1.2 times that. Divided first, so that nothing overflows.
fn size(added: u64) -> Decimal {
    Decimal(Decimal::ONE + added / 25000 * 3 + added % 25000 * 3 / 25000)
}

// What a pressure above 0 does.
fn say_gain(rt: &impl Print, g: Gain) -> io::Result<()> {
    match g {
        Gain::Idle => print!(rt; "; the internal pressure does not act"),
        Gain::Broken => print!(rt; "; the internal pressure acts, and gives no gain"),
        Gain::Applies(t) => {
            let gain = size(t);
            print!(rt; "; the internal pressure gives a gain of {gain}")
        }
        Gain::Unclear(t) => {
            let gain = size(t);
            print!(rt;
                "; it is too near to tell whether the internal pressure gives its gain of {gain}"
            )
        }
    }
}

// The same of a record; nothing where there is no pressure.
fn say_inner(rt: &impl Print, c: Record) -> io::Result<()> {
    match c.inner {
        Some(p) if 0 < p => say_gain(rt, c.gain(Order::PressureFirst)),
        _ => Ok(()),
    }
}

// The sum of a record that has a verdict, and the remarks on it.
fn say_judged(rt: &impl Print, j: Judgement, c: Record) -> io::Result<()> {
    say_sum(rt, j)?;
    say_wind_stress(rt, c)?;
    say_inner(rt, c)?;
    say_units(rt, c.group)
}

// A load case of several, with its own verdict.
fn say_case(rt: &impl Print, k: u64, c: Record) -> io::Result<()> {
    let Ok(j) = c.answer(Order::PressureFirst) else {
        return Ok(());
    };
    let verdict = Words(j.verdict);
    print!(rt; "\n  case {k} {verdict}")?;
    say_judged(rt, j, c)
}

// A verdict on load cases: of one with its sum and the remarks; of several the one that governs, and then each.
fn say_verdict(rt: &impl Print, j: Judgement, c: &Cases) -> io::Result<()> {
    let verdict = Words(j.verdict);
    print!(rt; " {verdict}")?;
    let groups = c.groups.as_slice();
    if let [group] = groups {
        return say_judged(rt, j, c.alone(*group));
    }
    let case = j.case;
    let count = groups.len();
    print!(rt; ", case {case} of {count} governs")?;
    say_sum(rt, j)?;
    for (group, k) in groups.iter().zip(1..) {
        say_case(rt, k, c.alone(*group))?;
    }
    Ok(())
}

// Whether it is the load case that breaks a check, and not the wall or the pressure.
fn is_own(r: Refusal, g: Group) -> bool {
    match r {
        Refusal::Range => !g.has_stresses(),
        Refusal::Wind => !g.ring.has_allowed_wind(),
        _ => false,
    }
}

// Each load case that breaks a check by itself, behind something or not: whether a `; ` is due is known only on the way.
fn say_each(rt: &impl Print, r: Refusal, behind: bool, c: &Cases) -> io::Result<()> {
    let mut behind = behind;
    for (group, k) in c.groups.as_slice().iter().zip(1u64..) {
        if is_own(r, *group) {
            let between = if behind { "; " } else { "" };
            print!(rt; "{between}case {k}: ")?;
            say_own(rt, r, *group)?;
            behind = true;
        }
    }
    Ok(())
}

// Why load cases are refused: what of the wall or the pressure breaks the check, and then each load case that does.
fn say_broken(rt: &impl Print, r: Refusal, c: &Cases) -> io::Result<()> {
    if let [group] = c.groups.as_slice() {
        return say_check(rt, r, c.alone(*group));
    }
    let shell = c.alone(Group::NONE);
    let of_shell = shell.check() == Err(r);
    if of_shell {
        say_check(rt, r, shell)?;
    }
    say_each(rt, r, of_shell, c)
}

// A refusal, with what broke the check.
fn say_refused(rt: &impl Print, r: Refusal, line: &[u8]) -> io::Result<()> {
    let n = u64::from(r);
    print!(rt; " is refused by {n}: ")?;
    if r == Refusal::LineBytes {
        let length = line.len();
        let most = sheet::LINE_MOST;
        return print!(rt; "it has {length} bytes, over {most}");
    }
    match read(line) {
        Some(cases) => say_broken(rt, r, &cases),
        None => say_form(rt, line),
    }
}

// A verdict on a line.
fn say_judged_line(rt: &impl Print, j: Judgement, line: &[u8]) -> io::Result<()> {
    match read(line) {
        Some(cases) => say_verdict(rt, j, &cases),
        None => Ok(()),
    }
}

// Line k of a sheet.
fn say_line(rt: &impl Print, k: u64, line: &[u8]) -> io::Result<()> {
    print!(rt; "line {k}")?;
    match sheet::answer(line, Order::PressureFirst) {
        Ok(j) => say_judged_line(rt, j, line),
        Err(r) => say_refused(rt, r, line),
    }?;
    println!(rt)
}

// The lines of a sheet.
fn say_lines(rt: &impl Print, sheet: &[u8]) -> io::Result<()> {
    for (line, k) in Lines::of(sheet).zip(1..) {
        say_line(rt, k, line)?;
    }
    Ok(())
}

// The counts of a sheet.
fn say_total(rt: &impl Print, c: Counts) -> io::Result<()> {
    println!(rt;
        "total: lines {}, holds {}, fails {}, open {}, refused {}",
        c.lines, c.holds, c.fails, c.opens, c.refused
    )
}

// Why a sheet is turned back.
fn say_batch(rt: &impl Print, r: Refusal) -> io::Result<()> {
    let n = u64::from(r);
    print!(rt; "the batch is refused by {n}: the sheet has over ")?;
    match r {
        Refusal::SheetBytes => println!(rt; "{BYTES_MOST} bytes"),
        _ => println!(rt; "{LINES_MOST} lines"),
    }
}

// The answers to a sheet in words, and their total; or why the sheet is turned back.
pub(crate) fn say_answers(rt: &impl Print, sheet: &[u8]) -> io::Result<()> {
    let mut listing = [0u8; ROOM];
    match sheet::run(sheet, &mut listing) {
        Ok(listed) => {
            say_lines(rt, sheet)?;
            say_total(rt, listed.counts)
        }
        Err(turned) => say_batch(rt, turned.refusal),
    }
}
