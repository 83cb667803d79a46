//! The top call: one command, from its words to its status.

ghost use Rattle.std.specs.Prelude.{◌≡◌, ◌≢◌, ◌↔◌, ◌⊎◌, is_some, map, None, IfSome, string_bytes};
ghost use Rattle.muni_edge.specs.Sink.{HasWritten, HasWrittenPart};
ghost use Rattle.muni_desk.specs.Command.{command_of};
ghost use Rattle.muni_desk.specs.Does.{Does, Spares};
ghost use Rattle.muni_desk_io.specs.Lent.{lent};
ghost use Rattle.muni_desk_serve.specs.Serves.{traffic};
ghost use Rattle.muni_desk.specs.Written.{TellsFaults};

use crate::answers::{drill_answer, help_answer, quote_answer, quote_one_answer};
use crate::command::read;
use crate::{Answer, CommandLine, DeskCommand, Status};
use muni_book::{Book, Calculator};
use muni_check::{check, check_alone};
use muni_desk_export::write_kept;
use muni_desk_import::{confirm, import, load};
use muni_desk_serve::serve;
use muni_edge::{Door, Gate, Sink, Source};
use muni_figures::figures;
use muni_keep::Cabinet;
use muni_marks::mark;
use muni_multi::Encloser;
use muni_position::{import_with_positions, positions};
use std::alloc::Global;
use std::thread::Threads;

/// Does what the words ask for, and writes the answer.
///
/// `quote-one COUPON NEXT SETTLE REDEMPTION YIELD` is the price of a security with six months or less
/// to redemption. `quote` and options in any order give the figures of a security, whose worth with more
/// than six months left comes from the encloser. `drill` and options in any order price a generated book
/// of trades, and give the sums. `import` applies the rows of the input to the tables of a store, and
/// writes a line on each, and then the positions of a desk if one is named. `load` does so of an input of
/// any length. `confirm` writes the confirmation of a trade that a store keeps, or with `--all` those of
/// all trades of a desk. `serve` answers the requests of connections that come in by a door. `positions`
/// writes what a desk holds of each security, and `mark` what the rows of a portfolio are worth. `figures`
/// writes the figures of each row of an input of any length. `check` says which figures that another firm printed are
/// right. `export` writes rows of what a store keeps, which a load reads, and `list` a line on each trade of a desk.
/// `help` names the commands.
/// Only the commands over a store allocate memory.
// As many threads look for yields as the words name workers, and the gate is called when they begin
// (tested).
pub fn desk<
    R: Threads + Sync,
    I: Source,
    O: Sink,
    C: Cabinet,
    D: Door,
    E: Encloser + Sync,
    G: Gate + Sync,
>(
    rt: &R,
    alloc: Global,
    words: &[String],
    input: &mut I,
    output: &mut O,
    cabinet: &mut C,
    door: &mut D,
    encloser: &E,
    gate: &G,
) -> Status
    requires none_out { C.out cabinet.old ≡ None }

    // Words that are no command change nothing.
    // promise 9: Usage exactly if the words are no command
    ensures usage { (result ≡ Status.Usage) ↔ (command_of (map string_bytes words.now) ≡ None) }
    // promise 7, 9: then nothing has changed
    ensures untouched { result ≡ Status.Usage
        → (input.new ≡ input.old) × (output.new ≡ output.old) × (cabinet.new ≡ cabinet.old) × (door.new ≡ door.old) }

    // Words that are a command do what it says, if the objects expose what they hold.
    // promise 1, 2, 3, 4, 5, 6, 7, 9, 10: what each command reads, changes and prints, and how it ends
    ensures does { IfSome (command_of (map string_bytes words.now)) (λ line.
        Does I.Source O.Sink C.Cabinet D.Door (E.ends encloser.now)
        (traffic D.L.left D.L.bytes D.L.Source.faults D.L.Sink.faults) line.command result
        (lent input.old output.old cabinet.old) (lent input.new output.new cabinet.new)
        door.old door.new) }
    // promise 7, 9: what a command does not name stays as it is
    ensures spares { IfSome (command_of (map string_bytes words.now)) (λ line.
        Spares line.command result (input.new ≡ input.old) (output.new ≡ output.old) (cabinet.new ≡ cabinet.old) (door.new ≡ door.old)) }

    // No keeper stays out.
    // promise 7: no keeper stays out of the cabinet
    ensures none_out { C.out cabinet.new ≡ None }
{
    match read(words) {
        Some(CommandLine { command, workers }) => {
            let calculator = Calculator {
                rt,
                workers,
                encloser,
                gate,
            };
            carry_out(&calculator, alloc, command, input, output, cabinet, door)
        }
        None => Status::Usage,
    }
}

fn carry_out<
    R: Threads + Sync,
    I: Source,
    O: Sink,
    C: Cabinet,
    D: Door,
    E: Encloser + Sync,
    G: Gate + Sync,
>(
    calculator: &Calculator<'_, R, E, G>,
    alloc: Global,
    command: DeskCommand,
    input: &mut I,
    output: &mut O,
    cabinet: &mut C,
    door: &mut D,
) -> Status
    requires none_out { C.out cabinet.old ≡ None }
    ensures does { Does I.Source O.Sink C.Cabinet D.Door (E.ends calculator.now.encloser.now)
        (traffic D.L.left D.L.bytes D.L.Source.faults D.L.Sink.faults) command result
        (lent input.old output.old cabinet.old) (lent input.new output.new cabinet.new)
        door.old door.new }
    ensures spares { Spares command result (input.new ≡ input.old) (output.new ≡ output.old) (cabinet.new ≡ cabinet.old) (door.new ≡ door.old) }
    ensures none_out { C.out cabinet.new ≡ None }
{
    match command {
        DeskCommand::QuoteOne(request) => say(&quote_one_answer(&request), output),
        DeskCommand::Quote { request, shown } => {
            say(&quote_answer(calculator, request, shown), output)
        }
        DeskCommand::Import {
            store,
            listed,
            limit,
        } => {
            let book = Book { calculator, limit };
            match listed {
                Some(desk) => Status::of_done(import_with_positions(
                    &book, alloc, &store, &desk, input, output, cabinet,
                )),
                None => Status::of_done(import(&book, alloc, &store, input, output, cabinet)),
            }
        }
        DeskCommand::Load { store, limit } => {
            let book = Book { calculator, limit };
            Status::of_done(load(&book, alloc, &store, input, output, cabinet))
        }
        DeskCommand::Confirm { store, key } => Status::of_answered(confirm(
            &store, &key, output, cabinet,
        )),
        DeskCommand::Serve {
            store,
            port,
            connections,
            limit,
        } => {
            let book = Book { calculator, limit };
            Status::of_served(serve(&book, alloc, &store, port, connections, cabinet, door))
        }
        DeskCommand::Positions { store, desk } => {
            Status::of_done(positions(alloc, &store, &desk, output, cabinet))
        }
        DeskCommand::Mark { store } => {
            let &Calculator { rt, encloser, .. } = calculator;
            Status::of_done(mark(rt, alloc, &store, input, output, cabinet, encloser))
        }
        DeskCommand::Figures { store, options } => Status::of_done(figures(
            calculator, alloc, &store, options, input, output, cabinet,
        )),
        DeskCommand::Check { store, desk } => Status::of_checked(check(
            calculator, alloc, &store, &desk, input, output, cabinet,
        )),
        DeskCommand::CheckAlone => {
            Status::of_checked(check_alone(calculator, alloc, input, output))
        }
        DeskCommand::Export { store, wanted } => {
            Status::of_done(write_kept(alloc, &store, &wanted, output, cabinet))
        }
        DeskCommand::Drill(request) => { say(&drill_answer(calculator, request), output) }
        DeskCommand::Help => say(&help_answer(), output),
    }
}

pub(crate) fn say<O: Sink>(answer: &Answer, output: &mut O) -> Status
    requires { answer.now.status ≢ Status.WriteFault }
    ensures written { ((result ≡ answer.now.status) × HasWritten (O.bytes output.old) (O.bytes output.new) answer.now.text.items)
        ⊎ ((result ≡ Status.WriteFault) × HasWrittenPart (O.bytes output.old) (O.bytes output.new) answer.now.text.items) }
    ensures tells { is_some (O.bytes output.new) ≡ is_some (O.bytes output.old) }
    ensures faults { TellsFaults result (O.faults output.old) (O.faults output.new) }
{
    match output.put(answer.text.as_slice()) {
        Ok(()) => answer.status,
        Err(_) => Status::WriteFault,
    }
}
