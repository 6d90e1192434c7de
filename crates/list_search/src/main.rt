// Imports the lab's text from standard input to a list of records, and writes for some readings the
// codes of the swatches within a tolerance, or the refusal, as the search of the list finds them.
#![tactic(auto)]

use deck::{MOST_SWATCHES, SearchError};
use fixed_point::{Reading, Weights};
use std::io;
use swatches::Swatch;

// Room for the text.
const TEXT_MOST: usize = 65536;

const ONES: Weights = Weights {
    l: 1.0,
    c: 1.0,
    h: 1.0,
};

// The codes at the first n places.
fn print_codes(rt: &impl Print, list: &[Swatch], places: &[u16], n: usize) -> io::Result<()> {
    for place in places.iter().take(n) {
        if let Some(s) = list.get(usize::from(*place)) {
            print!(rt; " {}", s.code)?;
        }
    }
    Ok(())
}

// A search of the first n records for those within a tolerance of a reading.
fn case(
    rt: &impl Print,
    list: [Swatch; MOST_SWATCHES],
    n: usize,
    reading: Reading,
    tolerance: f32,
    places: &mut [u16],
) -> io::Result<()> {
    match records::search_list(list, n, reading, ONES, tolerance, places) {
        Ok(count) => {
            print!(rt; "found {count}")?;
            print!(rt; ":")?;
            print_codes(rt, &list, places, count)?;
        }
        Err(SearchError::Refused(refusal)) => print!(rt; "refused {}", refusal.number())?,
        Err(SearchError::Short(needed)) => print!(rt; "refused 8, needs {needed}")?,
    }
    println!(rt;)
}

// The same list for several readings, tolerances and rooms.
fn cases(rt: &impl Print, list: [Swatch; MOST_SWATCHES], n: usize) -> io::Result<()> {
    let standard = Reading {
        l: 52.5,
        a: -3.25,
        b: 17.0625,
    };
    let outside = Reading {
        l: 101.0,
        a: 0.0,
        b: 0.0,
    };
    let mut places = [65535; MOST_SWATCHES];
    case(rt, list, n, standard, 0.0, &mut places)?;
    case(rt, list, n, standard, 12.0, &mut places)?;
    case(rt, list, n, standard, 100.0, &mut places)?;
    case(rt, list, 0, standard, 100.0, &mut places)?;
    case(rt, list, n, outside, 12.0, &mut places)?;
    case(rt, list, n, standard, 100.5, &mut places)?;
    let mut two = [65535; 2];
    case(rt, list, n, standard, 12.0, &mut two)?;
    // past its rows the list is black: L falls, unless the last row is black too
    case(rt, list, MOST_SWATCHES, standard, 12.0, &mut places)
}

fn main(rt: HostRuntime) -> io::Result<()> {
    let mut text = [0u8; TEXT_MOST];
    let n = input::read_full(&mut rt.stdin(), &mut text);
    let imported = records::import_list(&text[..n]);
    match imported.answer {
        Ok(count) => cases(&rt, imported.records, count),
        Err(refusal) => {
            print!(rt; "refused {}", refusal.number())?;
            println!(rt;)
        }
    }
}
