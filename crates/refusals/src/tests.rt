use hall::board::Board;
use hall::step::Step;
use sheet::fault::{FaultReport, SheetFault};
use sheet::line::line;
use sheet::print::Printed;
use sheet::run::Cursor;
use std::test::Fail;

// Runs a sheet on a new board, up to the first line that is refused.
fn run(text: &[u8]) -> Result<(), SheetFault> {
    let mut cursor = Cursor::new(text)?;
    let mut board = Board::new();
    while let Some(_) = cursor.next(text, &mut board)? {}
    Ok(())
}

// The numbers by which a fault is told: the line, the layer, the refusal, the field and the offset.
type Numbers = (usize, u32, u32, usize, usize);

fn numbers(report: FaultReport) -> Numbers {
    (
        report.line,
        report.layer as u32,
        report.refusal,
        report.field,
        report.offset,
    )
}

// The numbers by which a sheet is refused, if it is.
fn refusal(text: &[u8]) -> Option<Numbers> {
    run(text).err().map(|fault| numbers(fault.report()))
}

// The numbers by which a line is refused on the board, as line `number` of a sheet, if it is.
fn line_refusal(board: &mut Board, bytes: &[u8], number: usize) -> Option<Numbers> {
    let answer = line(board, bytes);
    answer.err().map(|fault| numbers(fault.report(number)))
}

// The number and the field by which a booking is refused, if it is.
fn booking_refusal(board: &mut Board, steps: &[Step]) -> Option<(u32, usize)> {
    let answer = board.enter(steps);
    answer.err().map(|fault| (fault.refusal(), fault.field()))
}

#[test]
fn text_and_record(rt: HostRuntime) {
    assert_eq!(rt; refusal(b"V\t0\t3\t01\t2\n"), Some((1, 1, 1, 3, 6)));
    assert_eq!(rt; refusal(b"T\t12345678"), Some((1, 1, 1, 1, 2)));
    assert_eq!(rt; refusal(b"V\t0\t3\nW\t0\n"), Some((2, 2, 2, 0, 0)));
    assert_eq!(rt; refusal(b"\n"), Some((1, 2, 2, 0, 0)));
    assert_eq!(rt; refusal(b"V\t0\t3\t1\n"), Some((1, 2, 3, 0, 0)));
    assert_eq!(rt; refusal(b"B\tx\ty\n"), Some((1, 2, 3, 0, 0)));
}

#[test]
fn fitter(rt: HostRuntime) {
    assert_eq!(rt; refusal(b"B\t0\n"), Some((1, 3, 10, 1, 2)));
    assert_eq!(rt; refusal(b"F\t7\n"), Some((1, 3, 10, 1, 2)));
    assert_eq!(rt; refusal(b"V\t0\t3\nB\t0\nB\t0\n"), Some((3, 3, 11, 1, 2)));
    assert_eq!(rt;
        refusal(b"V\t0\t3\nB\t0\nT\t3\nF\t0\nB\t0\n"),
        Some((5, 3, 12, 1, 2))
    );
    assert_eq!(rt;
        refusal(b"V\t0\t3\nV\t0\t4\nB\t0\nT\t10\nB\t1\n"),
        Some((5, 3, 13, 1, 2))
    );
    assert_eq!(rt; refusal(b"V\t0\t3\nF\t0\n"), Some((2, 3, 14, 1, 2)));
    assert_eq!(rt;
        refusal(b"V\t0\t3\nB\t0\nT\t2\nF\t0\n"),
        Some((4, 3, 15, 1, 2))
    );
}

#[test]
fn clock(rt: HostRuntime) -> Result<(), Fail> {
    assert_eq!(rt; refusal(b"T\t0\n"), Some((1, 3, 16, 1, 2)));
    assert_eq!(rt; refusal(b"T\t1441\n"), Some((1, 3, 16, 1, 2)));
    let mut board = Board::new();
    for _ in 0..694 {
        assert_eq!(rt; line(&mut board, b"T\t1440").is_ok(), true);
    }
    assert_eq!(rt;
        line_refusal(&mut board, b"T\t641", 9),
        Some((9, 3, 17, 1, 2))
    );
    assert_eq!(rt; board.pass(640)?, 1_000_000);
    Ok(())
}

#[test]
fn booking(rt: HostRuntime) {
    assert_eq!(rt; refusal(b"V\t0\t3\t16\t2\n"), Some((1, 3, 22, 3, 6)));
    assert_eq!(rt; refusal(b"V\t0\t1441\n"), Some((1, 3, 23, 2, 4)));
    let mut board = Board::new();
    let step = Step {
        station: 15,
        length: 1440,
    };
    assert_eq!(rt; booking_refusal(&mut board, &[]), Some((21, 0)));
    assert_eq!(rt; booking_refusal(&mut board, &[step; 9]), Some((21, 0)));
    for _ in 0..24 {
        assert_eq!(rt; line(&mut board, b"V\t15\t1440").is_ok(), true);
    }
    assert_eq!(rt;
        line_refusal(&mut board, b"V\t16\t0", 25),
        Some((25, 3, 20, 0, 0))
    );
}

#[test]
fn sheet_itself(rt: HostRuntime) -> Result<(), Fail> {
    let text = vec![in rt.alloc(); b'\n'; 60_001]?;
    assert_eq!(rt; refusal(&text), Some((0, 4, 5, 0, 0)));
    let fault = SheetFault::TooLong;
    let mut place = [b'.'; 13];
    assert_eq!(rt; fault.print(&mut place)?, 12);
    assert_eq!(rt; &place, b"E\t0\t4\t5\t0\t0\n.");
    let mut short = [b'.'; 11];
    assert_eq!(rt; fault.print(&mut short).is_err(), true);
    assert_eq!(rt; &short, b"...........");
    Ok(())
}
