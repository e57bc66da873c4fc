// Runs and closes to a layer of terms that is made before them.
ghost use Rattle.std.specs.Prelude.{◌≡◌};
ghost use Rattle.recognisers.specs.Refusal.{verdict_number};
ghost use Rattle.recognisers.specs.Threshold.{thresholds_of};
ghost use Rattle.terms.specs.Layer.{made_of};
ghost use Rattle.term_calls.specs.TermCalls.{hours_in};
ghost use Rattle.exports.specs.TermLists.{terms_sheet, terms_answers};

use recognisers::Thresholds;
use recognisers::refusals::verdict_number;
use term_calls::{hours_of, make_calls};

// Makes a layer and calls of these sizes to it: 0 is a close, any other number a run of that many of the bars that are left. The answer is
// 0, or the number of the making's refusal, which leaves sheet and answers; each call's answer is how many rows it filled, behind those
// of the calls before it, or 16,777,216 plus its refusal. Hours have two numbers to a window. The thresholds are thirteen
// parameters, since C passes them so.
#[unsafe(no_mangle)]
pub extern "C" fn jcc_terms(
    th0: f64,
    z2: u32,
    th2: u32,
    z3: u32,
    th3: u32,
    zdf5: u32,
    th6: u32,
    zdf7: u32,
    th8: f64,
    zf8: u32,
    th10: u32,
    th13: u32,
    th14: u32,
    minutes: u32,
    hours: &[u32],
    stamps: &[u32],
    prices: &[f64],
    sizes: &[u32],
    sheet: &mut [u8],
    answers: &mut [u32],
) -> u32
    ensures { let t = thresholds_of th0 z2 th2 z3 th3 zdf5 th6 zdf7 th8 zf8 th10 th13 th14 in
        let made = made_of t (hours_in hours.now) minutes in
        (result ≡ verdict_number made.verdict)
        × (sheet.new ≡ terms_sheet made prices.now stamps.now sizes.now sheet.old)
        × (answers.new ≡ terms_answers made prices.now stamps.now sizes.now sheet.old answers.old) }
{
    let t = Thresholds::new(
        th0, z2, th2, z3, th3, zdf5, th6, zdf7, th8, zf8, th10, th13, th14,
    );
    let made = terms::make(t, hours_of(hours), minutes);
    let verdict = made.verdict;
    if let Ok(()) = verdict {
        make_calls(made.after, sizes, prices, stamps, sheet, answers);
    }
    u32::from(verdict_number(verdict))
}
