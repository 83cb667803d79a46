//! For callers outside; the program goes by `desk`.

ghost use Rattle.std.specs.Prelude.{◌≡◌, ◌↔◌, map, None, IfSome, string_bytes};
ghost use Rattle.muni_desk.specs.Answers.{IsQuoteOneText};
ghost use Rattle.muni_desk.specs.Command.{quote_one_asked};
ghost use Rattle.muni_desk.specs.Does.{Says};

use crate::answers::quote_one_answer;
use crate::command::read;
use crate::output::say;
use crate::{CommandLine, DeskCommand, QuoteOneRequest, Status};
use muni_edge::Sink;

/// Does the command `quote-one COUPON NEXT SETTLE REDEMPTION YIELD`, as `desk` does it, and no other.
///
/// It allocates no memory.
pub fn quote_one<O: Sink>(words: &[String], output: &mut O) -> Status
    // Words that are not this command change nothing.
    ensures usage { (result ≡ Status.Usage) ↔ (quote_one_asked (map string_bytes words.now) ≡ None) }
    ensures untouched { result ≡ Status.Usage → output.new ≡ output.old }

    // Words that are have the price written, or the refusal that applies first, if the output exposes its bytes.
    ensures says { IfSome (quote_one_asked (map string_bytes words.now)) (λ request.
        Says O.Sink (λ answer. IsQuoteOneText request answer.status answer.text.items) result
        output.old output.new) }
{
    match read_request(words) {
        Some(request) => say(&quote_one_answer(&request), output),
        None => Status::Usage,
    }
}

fn read_request(words: &[String]) -> Option<QuoteOneRequest>
    ensures { result ≡ quote_one_asked (map string_bytes words.now) }
{
    let CommandLine { command, .. } = read(words)?;
    match command {
        DeskCommand::QuoteOne(request) => Some(request),
        _ => None,
    }
}
