use hours::closure::Closure;
use hours::fault::HoursFault;
use hours::open::Open;
use hours::window::Window;
use hours::windows::Windows;
use hours::{Hours, least_begin};
use std::test::Fail;

// A window of a station.
fn window(station: u32, from: u32, to: u32) -> Window {
    Window { station, from, to }
}

// The number and the index by which hours are refused, if they are.
fn refusal<H: Drop>(made: Result<H, HoursFault>) -> Option<(u32, Option<usize>)> {
    made.err().map(|fault| (fault.refusal(), fault.index()))
}

#[test]
fn windows_are_refused(rt: HostRuntime) {
    let good = window(15, 0, 2_000_000);
    let bad = window(16, 0, 1);
    assert_eq!(rt; refusal(Windows::new(&[good; 257])), Some((32, Some(256))));
    assert_eq!(rt; refusal(Windows::new(&[bad; 257])), Some((32, Some(256))));
    assert_eq!(rt; refusal(Windows::new(&[good; 256])), None);
    assert_eq!(rt; refusal(Windows::new(&[bad, good])), Some((32, Some(0))));
    assert_eq!(rt;
        refusal(Windows::new(&[good, window(0, 5, 5), bad])),
        Some((32, Some(1)))
    );
    assert_eq!(rt;
        refusal(Windows::new(&[good, good, window(0, 6, 5)])),
        Some((32, Some(2)))
    );
    assert_eq!(rt;
        refusal(Windows::new(&[good, window(0, 0, 2_000_001)])),
        Some((32, Some(1)))
    );
}

#[test]
fn closures_are_refused(rt: HostRuntime) {
    assert_eq!(rt; refusal(Closure::new(Open, 16, 0, 1)), Some((33, None)));
    assert_eq!(rt; refusal(Closure::new(Open, 0, 5, 5)), Some((33, None)));
    assert_eq!(rt;
        refusal(Closure::new(Open, 0, 0, 2_000_001)),
        Some((33, None))
    );
    assert_eq!(rt; refusal(Closure::new(Open, 15, 1_999_999, 2_000_000)), None);
}

#[test]
fn open_hours(rt: HostRuntime) {
    assert_eq!(rt; Open.earliest(15, 1_998_560, 1440), Some(1_998_560));
    assert_eq!(rt; Open.earliest(15, 1_998_561, 1440), None);
    assert_eq!(rt; Open.earliest(0, 1_999_999, 1), Some(1_999_999));
    assert_eq!(rt; Open.earliest(16, 0, 1), None);
    assert_eq!(rt; Open.earliest(0, 0, 0), None);
    assert_eq!(rt; Open.earliest(0, 0, 1441), None);
    assert_eq!(rt; Open.earliest(0, 4_294_967_295, 1), None);
    assert_eq!(rt;
        Open.earliest(4_294_967_295, 4_294_967_295, 4_294_967_295),
        None
    );
}

#[test]
fn window_hours(rt: HostRuntime) -> Result<(), Fail> {
    let records = [
        window(1, 20, 30),
        window(1, 10, 20),
        window(2, 0, 2_000_000),
    ];
    let hours = Windows::new(&records)?;
    assert_eq!(rt; hours.earliest(1, 0, 10), Some(10));
    assert_eq!(rt; hours.earliest(1, 11, 10), Some(20));
    assert_eq!(rt; hours.earliest(1, 0, 11), None);
    assert_eq!(rt; hours.earliest(1, 29, 1), Some(29));
    assert_eq!(rt; hours.earliest(1, 30, 1), None);
    assert_eq!(rt; hours.earliest(2, 1_998_560, 1440), Some(1_998_560));
    assert_eq!(rt; hours.earliest(2, 1_998_561, 1440), None);
    assert_eq!(rt; hours.earliest(3, 0, 1), None);
    assert_eq!(rt; hours.earliest(16, 0, 1), None);
    assert_eq!(rt; hours.earliest(2, 0, 0), None);
    assert_eq!(rt; hours.earliest(2, 0, 1441), None);
    assert_eq!(rt; hours.earliest(2, 4_294_967_295, 4_294_967_295), None);
    Ok(())
}

#[test]
fn closed_hours(rt: HostRuntime) -> Result<(), Fail> {
    let once = Closure::new(Open, 1, 10, 20)?;
    assert_eq!(rt; once.earliest(1, 7, 3), Some(7));
    assert_eq!(rt; once.earliest(1, 8, 3), Some(20));
    assert_eq!(rt; once.earliest(1, 20, 3), Some(20));
    assert_eq!(rt; once.earliest(2, 8, 3), Some(8));
    assert_eq!(rt; once.earliest(1, 0, 1441), None);
    assert_eq!(rt; once.earliest(1, 4_294_967_295, 1), None);
    let twice = Closure::new(once, 1, 22, 30)?;
    assert_eq!(rt; twice.earliest(1, 8, 2), Some(8));
    assert_eq!(rt; twice.earliest(1, 9, 2), Some(20));
    assert_eq!(rt; twice.earliest(1, 9, 3), Some(30));
    assert_eq!(rt; least_begin(&twice, 1, 29, 3), Some(30));
    Ok(())
}

#[test]
fn closed_windows(rt: HostRuntime) -> Result<(), Fail> {
    let records = [window(1, 0, 10), window(1, 12, 20)];
    let hours = Closure::new(Windows::new(&records)?, 1, 0, 9)?;
    assert_eq!(rt; hours.earliest(1, 0, 1), Some(9));
    assert_eq!(rt; hours.earliest(1, 0, 2), Some(12));
    assert_eq!(rt; hours.earliest(1, 0, 9), None);
    Ok(())
}
