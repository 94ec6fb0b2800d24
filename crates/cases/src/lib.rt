// Many load cases on one shell: the checks of all, and the one that governs.
#![tactic(auto)]

ghost use Rattle.std.specs.Prelude.{◌≡◌, ◌&&◌, ℕ, ◌+◌, ◌*◌, ◌≤◌, ◌<◌, length, get_or};
ghost use Rattle.answer.specs.Checks.{AllPassed};
ghost use Rattle.answer.specs.Answering.{refusal_by};
ghost use Rattle.record.specs.declared.Group.{Group};
ghost use Rattle.record.specs.Limits.{stresses, wind_allowed};
ghost use Rattle.record.specs.Answering.{WorkedOn};
ghost use Rattle.cases.specs.Cases.{one_case, alone, case_checks, RightCases, At};
ghost use Rattle.cases.specs.Numbers.{ring_from, group_from};
ghost use Rattle.cases.specs.Answering.{ListedOf, load_cases, no_group, Counted, Stands, StandsFor, NeededBy, judgements, governs, cases_answer};

use answer::{Answer, Judgement, Refusal};
use cylinder::ByStress;
use line_bounds::Worked;
use pressure::Order;
use record::{Group, Record, Ring, ValidRecord, Wall};

mod group_list;

pub use group_list::Groups;

// A shell with its load cases. There may be none, and `answer`, which needs one, says so: a call that writes a line may give none, and the writer refuses it.
#[derive(Clone, Copy)]
pub struct Cases {
    pub wall: Wall,
    pub groups: Groups,
    // p, the pressure inside the shell, N/m²; the group for it may be missing
    pub inner: Option<u64>,
}

// Of two load cases the one that breaks the earlier check; of two that break the same, the first; the second, where neither breaks one.
fn earlier(a: Group, b: Group) -> Group
    ensures { Stands (stresses a && stresses b) (wind_allowed a.ring && wind_allowed b.ring) result }
{
    if !a.has_stresses() {
        return a;
    }
    if !b.has_stresses() {
        return b;
    }
    if a.ring.has_allowed_wind() { b } else { a }
}

impl Cases {
    // A record as load cases.
    pub fn of_record(c: Record) -> Self
        ensures { (load_cases result ≡ one_case c) × Counted result }
    {
        let mut groups = Groups::new();
        groups.push(c.group);
        Cases {
            wall: c.wall,
            groups,
            inner: c.inner,
        }
    }

    // A load case on a line of its own.
    pub fn alone(&self, group: Group) -> Record
        ensures { result ≡ alone (load_cases self.now) group }
    {
        Record {
            wall: self.wall,
            group,
            inner: self.inner,
        }
    }

    // The load case at place i on a line of its own; one without stress where there is none. `first` reads it at 0 alone; that it answers for any place
    // is a promise to callers.
    pub fn case_at(&self, i: usize) -> Record
        ensures { result ≡ alone (load_cases self.now) (get_or self.now.groups i no_group) }
    {
        let group = self.groups.as_slice().get(i);
        self.alone(group.copied().unwrap_or(Group::NONE))
    }

    // A load case that breaks the first check that any breaks.
    fn earliest(&self) -> Group
        ensures { StandsFor self.now.groups result }
    {
        let groups = self.groups.as_slice();
        let mut found = Group::NONE;
        for g in groups {
            found = earlier(found, *g);
        }
        found
    }

    // Which places of S the load cases need.
    fn needed(&self) -> ByStress<bool>
        ensures { NeededBy self.now.groups result }
    {
        let groups = self.groups.as_slice();
        let mut all = ByStress::default();
        for g in groups {
            let more = g.needed();
            all.axial |= more.axial;
            all.ring |= more.ring;
            all.shear |= more.shear;
        }
        all
    }

    // The answer to the load cases, by a reading of the pressure's test: the refusal of the first check that they break, or the judgement that governs.
    pub fn answer(&self, o: Order) -> Answer
        requires { Counted self.now }
        ensures value { result ≡ cases_answer o (load_cases self.now) }
        ensures right_cases { RightCases o (load_cases self.now) result }
    {
        self.check()?;
        Ok(ValidCases { given: self }.judgement(o))
    }

    // Ok, or the refusal of the first check that the load cases break.
    pub fn check(&self) -> Result<(), Refusal>
        ensures { result ≡ refusal_by (case_checks (load_cases self.now)) }
    {
        self.alone(self.earliest()).check()
    }
}

// Load cases, one at least, that break no check.
#[derive(Clone, Copy)]
struct ValidCases<'a> {
    given: &'a Cases,
    ghost counted: { Counted given.now },
    ghost passed: { AllPassed (case_checks (load_cases given.now)) },
}

impl ValidCases<'_> {
    // The first load case.
    fn first(self) -> ValidRecord
        ensures { result.given ≡ alone (load_cases self.entry.given.now) (get_or self.entry.given.now.groups 0 no_group) }
    {
        ValidRecord {
            given: self.given.case_at(0),
        }
    }

    // What depends on the wall and the pressure alone, worked once for all load cases.
    #[tactic(auto, using(crate::proofs::Wanting::first_passed))]
    fn worked(self, o: Order) -> Worked
        ensures { (m : ℕ) (g : Group) → At self.entry.given.now.groups m g → WorkedOn o (alone (load_cases self.entry.given.now) g) result }
    {
        self.first().pressed(o).work(self.given.needed())
    }

    // The judgement that governs. The load cases are numbered from 1, in the order of the line.
    fn judgement(self, o: Order) -> Judgement
        ensures { result ≡ governs (judgements o (load_cases self.entry.given.now) 1 self.entry.given.now.groups) }
    {
        let w = self.worked(o);
        let mut worst = self.first().judgement_by(o, w);
        for (group, k) in self.given.groups.as_slice()[1..].iter().zip(2..) {
            let next = ValidRecord {
                given: self.given.alone(*group),
            };
            let judged = next.judgement_by(o, w);
            worst = worst.or_worse(judged.of_case(k));
        }
        worst
    }
}

// A ring stress, or wind where the kind is not 0. The kind is a number as the C interface has it; from here on it is a Ring.
fn ring_of(kind: u64, x: u64, y: u64) -> Ring
    ensures { result ≡ ring_from kind x y }
{
    if kind == 0 {
        return Ring::Stress(x);
    }
    Ring::Wind(x, y)
}

// The load case of five numbers.
fn group_of(five: &[u64; 5]) -> Group
    ensures { result ≡ group_from five.now 0 }
{
    let [axial, kind, x, y, shear] = *five;
    Group {
        axial,
        ring: ring_of(kind, x, y),
        shear,
    }
}

// The load cases of a list of numbers, five for each; none, where they are not 1 to 8, or the numbers are not in fives.
pub fn list_of(numbers: &[u64]) -> Option<Groups>
    ensures { ListedOf numbers.now result }
{
    let (fives, rest) = numbers.as_chunks::<5>();
    if fives.is_empty() || Groups::MOST < fives.len() || !rest.is_empty() {
        return None;
    }
    let mut groups = Groups::new();
    for five in fives {
        groups.push(group_of(five));
    }
    Some(groups)
}
