// Lines of cells that tabs part, printed into a lent slice.
ghost use Rattle.std.specs.Prelude.{◌≡◌, ◌≤◌, [], ◌∷◌, length, nat_le, decimal};
ghost use Rattle.std.specs.List.{flat_map};
ghost use Rattle.text.specs.Cells.{cell_text, cell_field, line_text};
ghost use Rattle.text.specs.Print.{printed_into, HasRoom, Puts};

use itoa::write_digits;

// What stands between two tabs of a printed line: a whole number, or one byte as it is. It is no `Display`, which
// writes UTF-8: from 128 on a symbol would be two bytes there.
#[derive(Clone, Copy, Debug, PartialEq, Eq)]
pub enum Cell {
    Number(u64),
    Symbol(u8),
}

// Why a line is not printed.
#[derive(Clone, Copy, Debug, PartialEq, Eq)]
pub enum PrintFault {
    NoRoom,
}

// A line that is being printed: the slice that its caller lends, and how much of its front is written.
#[derive(Drop)]
struct Line<'a> {
    place: &'a mut [u8],
    end: usize,
}

impl Line<'_> {
    // Writes a byte where the last ones ended.
    #[inline]
    fn put(&mut self, byte: u8)
        requires { HasRoom self.old (byte ∷ []) }
        ensures { Puts self.old self.new (byte ∷ []) }
    {
        self.place[self.end] = byte;
        self.end += 1;
    }

    // Writes the digits of a number: a single one at once, since most numbers that are printed are small, and more of them
    // from the last to the first, as the library does.
    #[inline]
    fn put_number(&mut self, n: u64)
        requires { HasRoom self.old (decimal n) }
        ensures { Puts self.old self.new (decimal n) }
    {
        if n < 10 {
            self.put(b'0' + n as u8);
            return;
        }
        let end = self.end + width(n);
        write_digits(n, self.place, end);
        self.end = end;
    }

    #[inline]
    fn put_cell(&mut self, cell: Cell)
        requires { HasRoom self.old (cell_text cell) }
        ensures { Puts self.old self.new (cell_text cell) }
    {
        match cell {
            Cell::Number(n) => self.put_number(n),
            Cell::Symbol(b) => self.put(b),
        }
    }

    // Writes the cells, with a tab between each two, and the line feed that ends them.
    fn put_line(&mut self, first: Cell, rest: &[Cell])
        requires { HasRoom self.old (line_text first rest.now) }
        ensures { Puts self.old self.new (line_text first rest.now) }
    {
        self.put_cell(first);
        for cell in rest {
            self.put(b'\t');
            self.put_cell(*cell);
        }
        self.put(b'\n');
    }
}

// How many digits a number has.
fn width(n: u64) -> usize
    ensures value { result ≡ length (decimal n) }
    ensures bound { result ≤ 20 }
{
    if n < 10 { 1 } else { n.ilog10() as usize + 1 }
}

// How many bytes a cell takes with the tab before it.
fn field_width(cell: Cell) -> usize
    ensures value { result ≡ length (cell_field cell) }
    ensures bound { result ≤ 21 }
{
    match cell {
        Cell::Number(n) => 1 + width(n),
        Cell::Symbol(_) => 2,
    }
}

// Whether the cells, each behind its tab, fit into `room` bytes. It looks at none behind the first that does not fit, where
// a sum of their widths would look at every cell.
fn fields_fit(room: usize, cells: &[Cell]) -> bool
    ensures { result ≡ nat_le (length (flat_map cell_field cells.now)) room }
{
    let mut left = room;
    for cell in cells {
        let wide = field_width(*cell);
        if wide > left {
            return false;
        }
        left -= wide;
    }
    true
}

// Whether the line of the cells fits into `room` bytes. Each cell but the first stands behind a tab, and a line feed ends
// the line: that is a field's width for each cell.
fn line_fits(room: usize, first: Cell, rest: &[Cell]) -> bool
    ensures { result ≡ nat_le (length (line_text first rest.now)) room }
{
    let wide = field_width(first);
    wide <= room && fields_fit(room - wide, rest)
}

// Prints the line of the cells at the front of `place`, and answers how many bytes it took;
// where there is no room for it, refuses and leaves `place` as it was.
#[tactic(auto, unfolding(crate::specs::Print::printed_into))]
pub fn print_line(place: &mut [u8], first: Cell, rest: &[Cell]) -> Result<usize, PrintFault>
    ensures answer { result ≡ (printed_into (line_text first rest.now) place.old).0 }
    ensures after { place.new ≡ (printed_into (line_text first rest.now) place.old).1 }
{
    if !line_fits(place.len(), first, rest) {
        return Err(PrintFault::NoRoom);
    }
    let mut line = Line { place, end: 0 };
    line.put_line(first, rest);
    Ok(line.end)
}
