// Searches of decks, with what each finds: a deck of greys, an empty one, one of 300 swatches with
// several tolerances, weights and lists, and decks that are refused.
#![tactic(auto)]

ghost use Rattle.std.specs.Prelude.{◌≡◌, length};

use deck::SearchError;
use fixed_point::{Reading, Weights};
use signed::Int;
use std::io;

const ONES: Weights = Weights {
    l: 1.0,
    c: 1.0,
    h: 1.0,
};

const GREY50: Reading = Reading {
    l: 50.0,
    a: 0.0,
    b: 0.0,
};

// The swatch at place 150 of the generated ones, as a reading.
const PLACE150: Reading = Reading {
    l: 49.995,
    a: 5.0,
    b: -10.0,
};

// The columns of a deck.
#[derive(Clone, Copy)]
struct Columns<'a> {
    l: &'a [i32],
    a: &'a [i32],
    b: &'a [i32],
}

// The places that a search listed.
fn print_places(rt: &impl Print, places: &[u16], n: usize) -> io::Result<()> {
    for place in places.iter().take(n) {
        print!(rt; " {place}")?;
    }
    Ok(())
}

// The first entry of the caller's list, which a refusal leaves as it was.
fn print_first(rt: &impl Print, places: &[u16]) -> io::Result<()> {
    if let Some(place) = places.first() {
        print!(rt; ", the list begins with")?;
        print!(rt; " {place}")?;
    }
    Ok(())
}

fn report(rt: &impl Print, found: Result<usize, SearchError>, places: &[u16]) -> io::Result<()> {
    match found {
        Ok(n) => {
            print!(rt; "{n} found:")?;
            print_places(rt, places, n)?;
        }
        Err(SearchError::Refused(refusal)) => {
            print!(rt; "refused {}", refusal.number())?;
            print_first(rt, places)?;
        }
        Err(SearchError::Short(n)) => {
            print!(rt; "refused 8, needs {n}")?;
            print_first(rt, places)?;
        }
    }
    println!(rt;)
}

fn case(
    rt: &impl Print,
    title: &str,
    deck: Columns,
    reading: Reading,
    weights: Weights,
    tolerance: f32,
    places: &mut [u16],
) -> io::Result<()> {
    print!(rt; "{title}: ")?;
    let found = deck::search(deck.l, deck.a, deck.b, reading, weights, tolerance, places);
    report(rt, found, places)
}

// The deck of greys, and what is refused of it.
fn grey_cases(rt: &impl Print) -> io::Result<()> {
    let zeros = [0; 5];
    let deck = Columns {
        l: &[400000, 450000, 500000, 500000, 600000],
        a: &zeros,
        b: &zeros,
    };
    let mut places = [65535; 5];
    case(
        rt,
        "grey deck, tolerance 5",
        deck,
        GREY50,
        ONES,
        5.0,
        &mut places,
    )?;
    let mut two = [65535; 2];
    case(
        rt,
        "grey deck, room for 2",
        deck,
        GREY50,
        ONES,
        5.0,
        &mut two,
    )
}

fn refused_cases(rt: &impl Print) -> io::Result<()> {
    let zeros = [0; 3];
    let falling = Columns {
        l: &[400000, 500000, 450000],
        a: &zeros,
        b: &zeros,
    };
    let unequal = Columns {
        l: &[400000, 450000, 500000],
        a: &zeros,
        b: &zeros[..2],
    };
    let mut two = [65535; 2];
    case(rt, "falling deck", falling, GREY50, ONES, 5.0, &mut two)?;
    case(rt, "unequal columns", unequal, GREY50, ONES, 5.0, &mut two)?;
    case(
        rt,
        "falling deck, tolerance 101",
        falling,
        GREY50,
        ONES,
        101.0,
        &mut two,
    )
}

fn empty_case(rt: &impl Print) -> io::Result<()> {
    let none = Columns {
        l: &[],
        a: &[],
        b: &[],
    };
    let mut two = [65535; 2];
    case(rt, "empty deck", none, GREY50, ONES, 5.0, &mut two)
}

// a or b of a generated swatch: whole units from -20 to 20.
fn opponent(n: usize) -> i32 {
    let size = (n % 41 * 10000) as u64;
    signed::to_i32(signed::natural_difference(size, 200000))
}

// 300 swatches, of lightness 0 up to 99.6567.
fn generate(l: &mut [i32; 300], a: &mut [i32; 300], b: &mut [i32; 300])
    requires { (length l.old ≡ 300) × ((length a.old ≡ 300) × (length b.old ≡ 300)) }
    ensures { (length l.new ≡ 300)
        × ((length a.new ≡ 300) × (length b.new ≡ 300)) }
{
    for k in 0..300 {
        l[k] = signed::to_i32(Int::from((k * 3333) as u64));
        a[k] = opponent(k * 7);
        b[k] = opponent(k * 11);
    }
}

// The generated deck at several tolerances and weights.
fn generated_cases(rt: &impl Print, deck: Columns) -> io::Result<()> {
    let heavy = Weights {
        l: 2.0,
        c: 1.0,
        h: 0.5,
    };
    let mut places = [65535; 300];
    case(rt, "tolerance 0", deck, PLACE150, ONES, 0.0, &mut places)?;
    case(rt, "tolerance 12", deck, PLACE150, ONES, 12.0, &mut places)?;
    case(
        rt,
        "tolerance 12, kL 2, kH 0.5",
        deck,
        PLACE150,
        heavy,
        12.0,
        &mut places,
    )?;
    case(
        rt,
        "tolerance 100",
        deck,
        PLACE150,
        ONES,
        100.0,
        &mut places,
    )
}

// As many places as the list has room for, and one more.
fn room_cases(rt: &impl Print, deck: Columns) -> io::Result<()> {
    let mut exact = [65535; 18];
    case(
        rt,
        "tolerance 12, room for 18",
        deck,
        PLACE150,
        ONES,
        12.0,
        &mut exact,
    )?;
    let mut short = [65535; 17];
    case(
        rt,
        "tolerance 12, room for 17",
        deck,
        PLACE150,
        ONES,
        12.0,
        &mut short,
    )
}

fn main(rt: HostRuntime) -> io::Result<()> {
    grey_cases(&rt)?;
    refused_cases(&rt)?;
    empty_case(&rt)?;
    let mut l = [0; 300];
    let mut a = [0; 300];
    let mut b = [0; 300];
    generate(&mut l, &mut a, &mut b);
    let deck = Columns {
        l: &l,
        a: &a,
        b: &b,
    };
    generated_cases(&rt, deck)?;
    room_cases(&rt, deck)
}
