// The C interface: the public calls as functions of the static library lahsufiq, declared in
// include/lahsufiq.h. Each returns the refusal's number, 0 for an answer.
#![tactic(auto)]

ghost use Rattle.std.specs.Prelude.{◌≡◌};
ghost use Rattle.fixed_point.specs.Rounding.{fixed_size};
ghost use Rattle.fixed_point.specs.Samples.{sample_of, weights_of};
ghost use Rattle.difference.specs.Cie76.{cie76_of};
ghost use Rattle.difference.specs.Cie94.{cie94_of};
ghost use Rattle.difference.specs.Ciede2000.{ciede2000_of, figures_of};
ghost use Rattle.difference.specs.Verdict.{within_tolerance};
ghost use Rattle.refusal.specs.Refusals.{refused_with};
ghost use Rattle.measure.specs.Answers.{answer_of, yes_of, figures_answer};
ghost use Rattle.measure.specs.Calls.{pair_refusal, weighted_refusal, verdict_refusal, ciede2000_answer};
ghost use Rattle.measure.specs.Many.{results, Compares};
ghost use Rattle.deck.specs.Deck.{asked, columns};
ghost use Rattle.deck.specs.Answers.{found, number_of};
ghost use Rattle.deck_file.specs.Transfers.{lent};
ghost use Rattle.lahsufiq.specs.Interface.{reading, weights, application_of, comparison_of, one_of, handed_count, Hands, HandsSearch};
ghost use Rattle.lab_text.specs.Imports.{lent as lent_columns};
ghost use Rattle.lahsufiq.specs.Interface.{HandsWrite, HandsRead, HandsImport};

use deck::SearchError;
use difference::cie94::{Application, Comparison};
use fixed_point::{Reading, Weights};
use measure::Judgement;
use refusal::Refusal;

// The refusal's number, 0 for an answer.
fn number<T: Copy>(answer: Result<T, Refusal>) -> u32
    ensures { result ≡ refused_with answer }
{
    match answer {
        Ok(_) => 0,
        Err(refusal) => u32::from(refusal.number()),
    }
}

fn reading(l: f32, a: f32, b: f32) -> Reading
    ensures { result ≡ reading l a b }
{
    Reading { l, a, b }
}

fn weights(l: f32, c: f32, h: f32) -> Weights
    ensures { result ≡ weights l c h }
{
    Weights { l, c, h }
}

// CIE76 of two readings.
#[unsafe(no_mangle)]
pub extern "C" fn lq_cie76(
    l1: f32,
    a1: f32,
    b1: f32,
    l2: f32,
    a2: f32,
    b2: f32,
    difference: &mut f64,
) -> u32
    ensures { let s = reading l1 a1 b1 in
        let t = reading l2 a2 b2 in
        let answer = answer_of (pair_refusal s t) (cie76_of (sample_of s) (sample_of t)) in
        Hands answer result difference.new }
{
    let s = reading(l1, a1, b1);
    let t = reading(l2, a2, b2);
    let cie76 = measure::cie76(s, t);
    *difference = cie76.unwrap_or(0.0);
    number(cie76)
}

// The constants that a truth value of C asks for.
fn application(textile: bool) -> Application
    ensures { result ≡ application_of textile }
{
    if textile {
        Application::Textiles
    } else {
        Application::GraphicArts
    }
}

// Whether sample 1 is a standard, from a truth value of C.
fn comparison(standard: bool) -> Comparison
    ensures { result ≡ comparison_of standard }
{
    if standard {
        Comparison::WithStandard
    } else {
        Comparison::WithoutStandard
    }
}

// CIE94 of two readings, with the constants for textiles where asked, sample 1 a standard or not.
#[unsafe(no_mangle)]
pub extern "C" fn lq_cie94(
    l1: f32,
    a1: f32,
    b1: f32,
    l2: f32,
    a2: f32,
    b2: f32,
    kl: f32,
    kc: f32,
    kh: f32,
    textile: bool,
    standard: bool,
    difference: &mut f64,
) -> u32
    ensures { let s = reading l1 a1 b1 in
        let t = reading l2 a2 b2 in
        let w = weights kl kc kh in
        let millionths = cie94_of (application_of textile) (comparison_of standard) (weights_of w) (sample_of s) (sample_of t) in
        let answer = answer_of (weighted_refusal s t w) millionths in
        Hands answer result difference.new }
{
    let s = reading(l1, a1, b1);
    let t = reading(l2, a2, b2);
    let w = weights(kl, kc, kh);
    let cie94 = measure::cie94(s, t, w, application(textile), comparison(standard));
    *difference = cie94.unwrap_or(0.0);
    number(cie94)
}

// CIEDE2000 of two readings.
#[unsafe(no_mangle)]
pub extern "C" fn lq_ciede2000(
    l1: f32,
    a1: f32,
    b1: f32,
    l2: f32,
    a2: f32,
    b2: f32,
    kl: f32,
    kc: f32,
    kh: f32,
    difference: &mut f64,
) -> u32
    ensures { let answer = ciede2000_answer (reading l1 a1 b1) (reading l2 a2 b2) (weights kl kc kh) in
        Hands answer result difference.new }
{
    let s = reading(l1, a1, b1);
    let t = reading(l2, a2, b2);
    let w = weights(kl, kc, kh);
    let ciede2000 = measure::ciede2000(s, t, w);
    *difference = ciede2000.unwrap_or(0.0);
    number(ciede2000)
}

// CIEDE2000 of many pairs, each with its refusal. The call itself is never refused.
#[unsafe(no_mangle)]
pub extern "C" fn lq_ciede2000_many(
    standards: &[f32],
    samples: &[f32],
    kl: f32,
    kc: f32,
    kh: f32,
    differences: &mut [f64],
    refusals: &mut [u8],
    pairs: &mut usize,
) -> u32
    ensures number { result ≡ 0 }
    ensures answers { let w = weights kl kc kh in
        let old = results differences.old refusals.old in
        let new = results differences.new refusals.new in
        Compares standards.now samples.now w old new pairs.new }
    ensures colours { (standards.exit.now ≡ standards.entry.now)
        × (samples.exit.now ≡ samples.entry.now) }
{
    let w = weights(kl, kc, kh);
    *pairs = measure::ciede2000_many(standards, samples, w, differences, refusals);
    0
}

// CIEDE2000 of two readings, and 1 where it is at most the tolerance, else 0.
#[unsafe(no_mangle)]
pub extern "C" fn lq_verdict(
    l1: f32,
    a1: f32,
    b1: f32,
    l2: f32,
    a2: f32,
    b2: f32,
    kl: f32,
    kc: f32,
    kh: f32,
    tolerance: f32,
    difference: &mut f64,
    within: &mut u8,
) -> u32
    ensures difference { let s = reading l1 a1 b1 in
        let t = reading l2 a2 b2 in
        let w = weights kl kc kh in
        let millionths = ciede2000_of (weights_of w) (sample_of s) (sample_of t) in
        Hands (answer_of (verdict_refusal s t w tolerance) millionths) result difference.new }
    ensures within { let s = reading l1 a1 b1 in
        let t = reading l2 a2 b2 in
        let w = weights kl kc kh in
        let millionths = ciede2000_of (weights_of w) (sample_of s) (sample_of t) in
        let yes = within_tolerance millionths (fixed_size tolerance) in
        within.new ≡ one_of (yes_of (verdict_refusal s t w tolerance) yes) }
{
    let s = reading(l1, a1, b1);
    let t = reading(l2, a2, b2);
    let w = weights(kl, kc, kh);
    let answer = measure::verdict(s, t, w, tolerance);
    let judgement = answer.unwrap_or(Judgement {
        difference: 0.0,
        within: false,
    });
    *difference = judgement.difference;
    *within = u8::from(judgement.within);
    number(answer)
}

// The 23 figures of the working of CIEDE2000.
#[unsafe(no_mangle)]
pub extern "C" fn lq_figures(
    l1: f32,
    a1: f32,
    b1: f32,
    l2: f32,
    a2: f32,
    b2: f32,
    kl: f32,
    kc: f32,
    kh: f32,
    figures: &mut [i64; 23],
) -> u32
    ensures number { result ≡ weighted_refusal (reading l1 a1 b1) (reading l2 a2 b2) (weights kl kc kh) }
    ensures figures { let s = reading l1 a1 b1 in
        let t = reading l2 a2 b2 in
        let w = weights kl kc kh in
        let row = figures_answer (weighted_refusal s t w) (figures_of (weights_of w) (sample_of s) (sample_of t)) in
        figures.new ≡ row }
{
    let s = reading(l1, a1, b1);
    let t = reading(l2, a2, b2);
    let w = weights(kl, kc, kh);
    let answer = measure::figures(s, t, w);
    *figures = answer.unwrap_or([0; 23]);
    number(answer)
}

// The refusal's number, and the number of matches, or with refusal 8 the number needed.
fn number_and_count(answer: Result<usize, SearchError>) -> (u32, usize)
    ensures number { result.0 ≡ number_of (found answer) }
    ensures count { result.1 ≡ handed_count (found answer) }
{
    match answer {
        Ok(n) => (0, n),
        Err(SearchError::Refused(refusal)) => (u32::from(refusal.number()), 0),
        Err(SearchError::Short(needed)) => (8, needed),
    }
}

// The places of the swatches within the tolerance, to the front of the list that was lent.
#[unsafe(no_mangle)]
pub extern "C" fn lq_search(
    l: &[i32],
    a: &[i32],
    b: &[i32],
    rl: f32,
    ra: f32,
    rb: f32,
    kl: f32,
    kc: f32,
    kh: f32,
    tolerance: f32,
    places: &mut [u16],
    count: &mut usize,
) -> u32
    ensures search { let deck = columns l.now a.now b.now in
        let query = asked (reading rl ra rb) (weights kl kc kh) tolerance in
        HandsSearch query deck places.old places.new result count.new }
    ensures columns { (l.exit.now ≡ l.entry.now)
        × ((a.exit.now ≡ a.entry.now) × (b.exit.now ≡ b.entry.now)) }
{
    let r = reading(rl, ra, rb);
    let w = weights(kl, kc, kh);
    let (number, n) = number_and_count(deck::search(l, a, b, r, w, tolerance, places));
    *count = n;
    number
}

// A deck as the bytes of a file, to the front of the list that was lent.
#[unsafe(no_mangle)]
pub extern "C" fn lq_deck_write(
    l: &[i32],
    a: &[i32],
    b: &[i32],
    file: &mut [u8],
    length: &mut usize,
) -> u32
    ensures write { let deck = columns l.now a.now b.now in
        HandsWrite deck file.old file.new result length.new }
    ensures columns { (l.exit.now ≡ l.entry.now)
        × ((a.exit.now ≡ a.entry.now) × (b.exit.now ≡ b.entry.now)) }
{
    let written = deck_file::write(l, a, b, file);
    *length = written.unwrap_or(0);
    number(written)
}

// The deck of a file's bytes, to the front of the columns that were lent.
#[unsafe(no_mangle)]
pub extern "C" fn lq_deck_read(
    file: &[u8],
    l: &mut [i32],
    a: &mut [i32],
    b: &mut [i32],
    count: &mut usize,
) -> u32
    ensures read { let old = lent l.old a.old b.old in
        let new = lent l.new a.new b.new in
        HandsRead file.now old new result count.new }
    ensures file { file.exit.now ≡ file.entry.now }
{
    let found = deck_file::read(file, l, a, b);
    *count = found.unwrap_or(0);
    number(found)
}

// The swatches of the lab's text in rising lightness, to the front of the columns that were lent.
#[unsafe(no_mangle)]
pub extern "C" fn lq_import(
    text: &[u8],
    code: &mut [u32],
    l: &mut [i32],
    a: &mut [i32],
    b: &mut [i32],
    count: &mut usize,
) -> u32
    ensures import { let old = lent_columns code.old l.old a.old b.old in
        let new = lent_columns code.new l.new a.new b.new in
        HandsImport text.now old new result count.new }
    ensures text { text.exit.now ≡ text.entry.now }
{
    let imported = lab_text::import(text, code, l, a, b);
    *count = imported.unwrap_or(0);
    number(imported)
}
