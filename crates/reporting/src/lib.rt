// What the program `report` says of an array: its input parsed, the array recovered, the text put together.
// Everything is done on slices, so that the program only reads and writes. Nothing is required of a caller of `report`.
#![tactic(auto)]

ghost use Rattle.std.specs.Prelude.{◌≡◌, ◌≤◌, length, take};
ghost use Rattle.io.specs.Counts.{IsPrefixLen};
ghost use Rattle.model.specs.Zones.{torn_of};
ghost use Rattle.model.specs.Commands.{exec, recover};
ghost use Rattle.text.specs.Text.{Put};
ghost use Rattle.reporting.specs.Report.{ScanFits, outcome_text, lent, array_report, report_on, report_of};

use device::Device;
use model::{Geometry, Map, State};

/// The torn pages in scan order.
fn torn_pages(array: &[u8], s: &State) -> usize
    requires { ScanFits array.now s.now }
    ensures { result ≡ torn_of array.now s.now.geometry.pages s.now.zones }
{
    let order = blocks::scan_order(s.zones);
    zones::torn_in(array, s.geometry.pages as usize, order.as_slice())
}

/// Recovers with the map lent, and puts the report.
fn recovered(out: &mut [u8], array: &[u8], map: &mut [u16], g: Geometry) -> usize
    requires { 8192 ≤ length out.old }
    ensures { Put out.old 0 (outcome_text (exec (recover g) (lent g array.now map.old))) 8192 out.new result }
{
    let hold = [0u8; State::HOLD];
    let d = Device {
        state: State::fresh(g),
    };
    let r = d.recover(array, map, &hold, g);
    let answer = answers::number(r.answer);
    if answer != 0 {
        return lines::number_line(out, 0, b"answer=", u64::from(answer));
    }
    let torn = torn_pages(array, &r.device.state);
    outcome::done_lines(out, &r.device.state, map, torn)
}

/// Puts the report on an array.
fn array_report(out: &mut [u8], array: &[u8], g: Geometry) -> usize
    requires { 8192 ≤ length out.old }
    ensures { Put out.old 0 (array_report g array.now) 8192 out.new result }
{
    if 65536 < array.len() || Geometry::MAX_LOGICAL < g.logical {
        return lines::number_line(out, 0, b"answer=", 1);
    }
    let mut entries = [Map::UNMAPPED; 1024];
    recovered(out, array, &mut entries[..g.logical as usize], g)
}

/// What the three lines of an input say, and the array behind them; nothing where one is ill-formed.
fn parsed(input: &[u8]) -> Option<(Geometry, &[u8])>
    ensures { report_on result ≡ report_of input.now }
{
    let (blocks, second) = lines::line(b"blocks=", input)?;
    let (pages, third) = lines::line(b"pages=", second)?;
    let (logical, array) = lines::line(b"logical=", third)?;
    let g = Geometry {
        blocks,
        pages,
        logical,
        planes: 1,
    };
    Some((g, array))
}

/// Puts the report on an input, three lines and an array, at the front of out, and answers its length.
pub fn report(input: &[u8], out: &mut [u8; 8192]) -> usize
    ensures { (take result out.new ≡ report_of input.now) × IsPrefixLen result out.new }
{
    let Some((g, array)) = parsed(input) else {
        return lines::number_line(out, 0, b"answer=", 1);
    };
    array_report(out, array, g)
}
