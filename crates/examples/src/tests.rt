// Examples run through the code of all layers. They stand here, in a small crate, since a crate with tests is proved twice.
use crate::s235;
use fires::{Fire, GasCurve, GaugeRecord, NoFlux, Refusal as FireRefusal, Shaded, Shading};
use member_check::{Figures, Member, critical_temperature, passes};
use rounding::rounded_up;
use std::test::Fail;
use steels::{Cap, Capped, Carbon, MillSheet, Point, Refusal as SteelRefusal, Steel};
use trial::{Refusal as SheetRefusal, Sheet};

#[test]
fn rounds_up_on_both_sides_of_zero(rt: HostRuntime) {
    assert_eq!(rt; rounded_up(13_500, 1000), 14);
    assert_eq!(rt; rounded_up(-13_500, 1000), -13);
    assert_eq!(rt; rounded_up(i64::MIN, 1), i64::MIN);
    assert_eq!(rt; rounded_up(7, 0), 0);
}

#[test]
fn carbon_steel_follows_its_table(rt: HostRuntime) {
    assert_eq!(rt; Carbon::new().stiffness_at(850), 787);
    assert_eq!(rt; Carbon::new().strength_at(5000), 0);
    assert_eq!(rt; Carbon::new().capacity_at(734), 3916);
    assert_eq!(rt; Carbon::new().capacity_at(735), 5000);
}

fn point(degree: u32, strength: u32, capacity: u32) -> Point {
    Point {
        degree,
        strength,
        stiffness: strength,
        capacity,
    }
}

#[test]
fn mill_sheet_is_taken_whole_or_not_at_all(rt: HostRuntime) -> Result<(), Fail> {
    let mut sheet = MillSheet::new();
    assert_eq!(rt; sheet.strength_at(700), 10_000);
    sheet.read(&[
        point(20, 10_000, 500),
        point(620, 4000, 700),
        point(1200, 0, 650),
    ])?;
    assert_eq!(rt; sheet.strength_at(320), 7000);
    assert_eq!(rt; sheet.capacity_at(619), 500);
    let rising = [point(20, 5000, 500), point(1200, 5001, 500)];
    assert_eq!(rt;
        sheet.read(&rising),
        Err(SteelRefusal::PointFigure { point: 1 })
    );
    assert_eq!(rt; sheet.capacity_at(620), 700);
    Ok(())
}

#[test]
fn capped_steel_carries_nothing_from_its_cap_on(rt: HostRuntime) -> Result<(), Fail> {
    let class_4 = Capped::over(Carbon::new(), Cap::new(351)?);
    assert_eq!(rt; class_4.strength_at(350), 10_000);
    assert_eq!(rt; class_4.strength_at(351), 0);
    let tie = Member::new(s235(None))?;
    assert_eq!(rt; critical_temperature(&tie, &class_4, 1), 350);
    assert_eq!(rt; critical_temperature(&tie, &class_4, 0), 1_200);
    Ok(())
}

#[test]
fn record_reads_signed_words(rt: HostRuntime) -> Result<(), Fail> {
    let mut record = GaugeRecord::new();
    record.read(&[0xff, 0xfd, 0x80, 0x00])?;
    assert_eq!(rt; record.reading_at(0, 20_000), Ok(-30));
    assert_eq!(rt; record.reading_at(1, 20_000), Err(NoFlux::Missing));
    assert_eq!(rt; record.read(&[1]), Err(FireRefusal::RecordLength));
    assert_eq!(rt; record.reading_at(2, 20_000), Err(NoFlux::Ended));
    Ok(())
}

#[test]
fn curve_heats_and_refuses(rt: HostRuntime) -> Result<(), Fail> {
    let mut curve = GasCurve::new();
    curve.read(&[100])?;
    assert_eq!(rt; curve.reading_at(0, 20_999), Ok(2476));
    assert_eq!(rt;
        curve.read(&[20, 19]),
        Err(FireRefusal::GasTemperature { step: 1 })
    );
    Ok(())
}

#[test]
fn shading_rounds_losses_up(rt: HostRuntime) -> Result<(), Fail> {
    let mut record = GaugeRecord::new();
    record.read(&[0xff, 0xff, 0x00, 0x01])?;
    let shaded = Shaded::over(record, Shading::new(950)?);
    assert_eq!(rt; shaded.reading_at(0, 20_000), Ok(-9));
    assert_eq!(rt; shaded.reading_at(1, 20_000), Ok(10));
    Ok(())
}

#[test]
fn a_tie_holds_to_its_strength(rt: HostRuntime) -> Result<(), Fail> {
    let tie = Member::new(s235(None))?;
    assert_eq!(rt; critical_temperature(&tie, &Carbon, 0), 1_200);
    assert_eq!(rt; critical_temperature(&tie, &Carbon, 500_000), 590);
    assert_eq!(rt; critical_temperature(&tie, &Carbon, 1_000_001), 19);
    Ok(())
}

#[test]
fn a_strut_buckles_before(rt: HostRuntime) -> Result<(), Fail> {
    let strut = Member::new(s235(Some(2_000_000)))?;
    assert_eq!(rt; critical_temperature(&strut, &Carbon, 300_000), 569);
    assert!(rt; !passes(&strut, &Carbon, u64::MAX, 20));
    Ok(())
}

#[test]
fn the_smallest_number_is_given(rt: HostRuntime) -> Result<(), Fail> {
    let Err(refusal) = Member::new(Figures {
        seconds: 6,
        ..s235(Some(0))
    }) else {
        return Err(Fail::new("accepted"));
    };
    assert_eq!(rt; refusal.number(), 2);
    Ok(())
}

// Two steps of 10,000 W/m² and one of −30, for the strut.
fn short_trial() -> Result<Sheet<Carbon, GaugeRecord>, Fail> {
    let mut record = GaugeRecord::new();
    record.read(&[0x03, 0xe8, 0x03, 0xe8, 0xff, 0xfd])?;
    let strut = Member::new(s235(Some(2_000_000)))?;
    Ok(Sheet::new(strut, Carbon::new(), record))
}

#[test]
fn a_sheet_heats_and_takes_back(rt: HostRuntime) -> Result<(), Fail> {
    let mut sheet = short_trial()?;
    assert_eq!(rt; sheet.heat(3), (3, 0));
    assert_eq!(rt; sheet.temperature_at(3), Some(25_783));
    assert_eq!(rt; sheet.hottest(), 25_791);
    assert_eq!(rt; sheet.back(1), Ok(()));
    assert_eq!(rt; sheet.standing(), 2);
    assert_eq!(rt; sheet.back(3), Err(SheetRefusal::BackBeyondStart));
    assert_eq!(rt; sheet.heat(5), (1, 14));
    assert_eq!(rt; sheet.temperature_at(4), None);
    Ok(())
}

#[test]
fn a_sheet_judges_its_load(rt: HostRuntime) -> Result<(), Fail> {
    let mut sheet = short_trial()?;
    assert_eq!(rt; sheet.load(300_000), Ok(()));
    assert_eq!(rt; sheet.critical_temperature(), 569);
    assert_eq!(rt; sheet.load(1_000_000), Err(SheetRefusal::NotCarriedCold));
    assert_eq!(rt; sheet.critical_temperature(), 569);
    assert_eq!(rt; sheet.first_failing(), None);
    Ok(())
}
