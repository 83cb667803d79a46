//! The lines of how the price of a trade moves with its yield.

ghost use Rattle.std.specs.Prelude.{◌≡◌, ◌≤◌, ◌+◌, ◌++◌, length};
ghost use Rattle.arrayvec.specs.ArrayVec.{array_vec_len};
ghost use Rattle.muni_confirm.specs.Risk.{current_yield_line, sensitivity_lines, risk_lines};

use crate::laws::risk_fits;
use arrayvec::ArrayVec;
use muni_dec::text::{push, push_line};
use muni_risk::{Risk, Sensitivities, print_millionths, print_thousandths};

/// Appends the lines of how the price moves with the yield, or nothing for a discounted note: the current
/// yield if there is one, the duration, the convexity and the DV01.
pub fn push_risk<const ROOM: usize>(text: &mut ArrayVec<u8, ROOM>, risk: Option<Risk>)
    requires { array_vec_len text.old + 141 ≤ ROOM }
    // promise 1: the lines of how the price moves, byte for byte
    ensures items { text.new.items ≡ text.old.items ++ risk_lines risk }
    // promise 10: at most 141 bytes
    ensures len { array_vec_len text.new ≤ array_vec_len text.old + 141 }
{
    risk_fits(risk);
    if let Some(risk) = risk {
        let mut lines = ArrayVec::new();
        push_current_yield(&mut lines, risk.current_yield);
        push_sensitivities(&mut lines, risk.sensitivities);
        push(text, &lines);
    }
}

fn push_current_yield(text: &mut ArrayVec<u8, 160>, current_yield: Option<u64>)
    requires { array_vec_len text.old + length (current_yield_line current_yield) ≤ 160 }
    ensures { text.new.items ≡ text.old.items ++ current_yield_line current_yield }
{
    if let Some(current_yield) = current_yield {
        let mut value = ArrayVec::new();
        print_thousandths(current_yield, &mut value);
        push_line(text, b"CURRENT YIELD", &value);
    }
}

#[tactic(auto, unfolding(crate::specs::Risk::sensitivity_lines))]
fn push_sensitivities(text: &mut ArrayVec<u8, 160>, sensitivities: Sensitivities)
    requires { array_vec_len text.old + length (sensitivity_lines sensitivities) ≤ 160 }
    ensures { text.new.items ≡ text.old.items ++ sensitivity_lines sensitivities }
{
    let mut value = ArrayVec::new();
    print_thousandths(sensitivities.duration, &mut value);
    push_line(text, b"DURATION", &value);
    print_thousandths(sensitivities.convexity, &mut value);
    push_line(text, b"CONVEXITY", &value);
    print_millionths(sensitivities.dv01, &mut value);
    push_line(text, b"DV01", &value);
}
