// Critical temperatures by degree of utilisation beside EN 1993-1-2, Table 4.1, and the net heat flux of gas onto steel.
#![tactic(auto)]

ghost use Rattle.std.specs.Prelude.{◌≡◌, ◌*◌};
ghost use Rattle.member_check.specs.Check.{critical_of};
ghost use Rattle.member_check.specs.Members.{figures_of};
ghost use Rattle.steels.specs.declared.table.Reduction.TheVariants.{Stiffness, Strength};

use examples::s235;
use fires::{Fire, GasCurve, GaugeRecord, NoFlux, Shaded, Shading};
use member_check::{Member, critical_temperature};
use std::fmt;
use steels::{Cap, Capped, Carbon, Steel};

// EN 1993-1-2, Table 4.1: critical temperatures at utilisations from 0.22 to 0.80 by 0.02.
const TABLE_4_1: [u32; 30] = [
    711, 698, 685, 674, 664, 654, 645, 636, 628, 620, 612, 605, 598, 591, 585, 578, 572, 566, 560,
    554, 549, 543, 537, 531, 526, 520, 514, 508, 502, 496,
];

// A critical temperature as it is printed: `none` for 19, the number by which the rules say that there is none.
#[derive(Clone, Copy)]
struct Degree(u32);

impl fmt::Display for Degree {
    fn fmt<W: fmt::Write>(&self, f: &mut fmt::Formatter<W>) -> fmt::Result {
        if self.0 < 20 {
            f.pad("none")
        } else {
            self.0.fmt(f)
        }
    }
}

// The critical temperature at a utilisation in hundredths of a cold strength of 1,000,000. The clause names both factors apart, as the definition does.
fn critical<S: Steel>(member: &Member, steel: &S, hundredths: u32) -> Degree
    ensures { result.0 ≡ critical_of (figures_of member.now) (S.Steel.factor steel.now Strength) (S.Steel.factor steel.now Stiffness) (10000 * hundredths) }
{
    Degree(critical_temperature(member, steel, 10_000 * u64::from(hundredths)))
}

// A line for each utilisation of the table; how far the tie lies below and above it.
fn print_utilisations(rt: &impl Print) -> anyhow::Result<()> {
    let tie = Member::new(s235(None))?;
    let strut = Member::new(s235(Some(2_000_000)))?;
    let class_4 = Capped::over(Carbon::new(), Cap::new(351)?);
    let mut below = 0;
    let mut above = 0;
    for (hundredths, tabled) in (22..=80).step_by(2).zip(TABLE_4_1) {
        let here = critical(&tie, &Carbon::new(), hundredths);
        let difference = i64::from(here.0) - i64::from(tabled);
        below = below.min(difference);
        above = above.max(difference);
        let buckling = critical(&strut, &Carbon::new(), hundredths);
        let capped = critical(&strut, &class_4, hundredths);
        println!(rt;
            "       0.{hundredths}  {tabled:9}  {here:>4}  {difference:+10}  {buckling:>5}  {capped:>7}"
        )?;
    }
    let lowest = below.unsigned_abs();
    println!(rt; "\nThe tie lies from {lowest} below to {above} above the table.\n")?;
    Ok(())
}

// The gas temperatures from 100 to 1,200 by 100.
const GAS: [u32; 12] = [
    100, 200, 300, 400, 500, 600, 700, 800, 900, 1000, 1100, 1200,
];

// What a fire tells of a step, as it is printed.
#[derive(Clone, Copy)]
struct Told(Result<i32, NoFlux>);

impl fmt::Display for Told {
    fn fmt<W: fmt::Write>(&self, f: &mut fmt::Formatter<W>) -> fmt::Result {
        match self.0 {
            Ok(flux) => flux.fmt(f),
            Err(NoFlux::Missing) => f.pad("missing"),
            Err(NoFlux::Ended) => f.pad("ended"),
        }
    }
}

fn curve() -> anyhow::Result<GasCurve> {
    let mut curve = GasCurve::new();
    curve.read(&GAS)?;
    Ok(curve)
}

fn print_fluxes(rt: &impl Print) -> anyhow::Result<()> {
    let bare = curve()?;
    let shaded = Shaded::over(curve()?, Shading::new(900)?);
    for (step, gas) in GAS.iter().enumerate() {
        let bare_cold = Told(bare.reading_at(step, 20_000));
        let shaded_cold = Told(shaded.reading_at(step, 20_000));
        let bare_hot = Told(bare.reading_at(step, 600_000));
        let shaded_hot = Told(shaded.reading_at(step, 600_000));
        println!(rt; "{gas:4}  {bare_cold:>7}  {shaded_cold:>9}  {bare_hot:>8}  {shaded_hot:>10}")?;
    }
    Ok(())
}

// Degrees at the rows of the table, between them, and on both sides of each change of formula.
const DEGREES: [u32; 16] = [
    20, 150, 450, 500, 550, 599, 600, 650, 734, 735, 850, 899, 900, 950, 1150, 1200,
];

fn print_steel(rt: &impl Print) -> anyhow::Result<()> {
    let carbon = Carbon::new();
    for degree in DEGREES {
        let strength = carbon.strength_at(degree);
        let stiffness = carbon.stiffness_at(degree);
        let capacity = carbon.capacity_at(degree);
        println!(rt; "{degree:6}  {strength:8}  {stiffness:9}  {capacity:8}")?;
    }
    Ok(())
}

// Five words: the least and the greatest flux, a gain and a loss, and no reading; then the end.
const WORDS: [u8; 10] = [0x80, 0x01, 0x7f, 0xff, 0x03, 0xe8, 0xff, 0xfd, 0x80, 0x00];

fn print_record(rt: &impl Print) -> anyhow::Result<()> {
    let mut record = GaugeRecord::new();
    record.read(&WORDS)?;
    // A fire is asked by the number of a step; the one behind the last is asked too.
    for step in 0..=record.step_count() {
        let flux = Told(record.reading_at(step, 20_000));
        println!(rt; "{step:4}  {flux:>7}")?;
    }
    Ok(())
}

// The headings of the four tables.
const UTILISATIONS: &str =
    "Critical temperatures in degrees Celsius, carbon steel, f = 235 MPa\n(strut: ideal buckling load twice the cold strength; class 4: that strut, capped at 351)\n\nutilisation  Table 4.1   tie  difference  strut  class 4";

const FLUXES: &str =
    "Net heat flux in W/m2 by gas temperature, onto steel at 20 and at 600 degrees, bare and with a shading of 0.900\n\n gas  bare 20  shaded 20  bare 600  shaded 600";

const FACTORS: &str =
    "\nCarbon steel: factors in ten-thousandths, heat capacity in J/(kg K)\n\ndegree  strength  stiffness  capacity";

const RECORD: &str =
    "\nGauge record 8001 7FFF 03E8 FFFD 8000: net heat flux in W/m2\n\nstep     flux";

fn run(rt: &impl Print) -> anyhow::Result<()> {
    // Carries the proof that the worked figures of the rules hold.
    examples::worked_figures();
    rt.println(UTILISATIONS)?;
    print_utilisations(rt)?;
    rt.println(FLUXES)?;
    print_fluxes(rt)?;
    rt.println(FACTORS)?;
    print_steel(rt)?;
    rt.println(RECORD)?;
    print_record(rt)
}

fn main(rt: HostRuntime) -> anyhow::Result<()> {
    run(&rt)
}
