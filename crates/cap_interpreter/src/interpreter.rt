//! The interpreter of lines.
ghost use Rattle.std.specs.Prelude.{◌≡◌, ◌++◌, ⊤, None, Err, IfErr, OnOk, OnErr, string_bytes};
ghost use Rattle.cap_locked.specs.Fault.{MatchCallFault};
ghost use Rattle.cap_interpreter.specs.Lines.{Course, IsAt, IsFull, after_line, begin_course, on_a_line};
ghost use Rattle.cap_interpreter.specs.Lines.{text_of};

use crate::held::Open;
use crate::lines::{run_alone, run_open};
use cap_core::Core;
use cap_locked::CallFault;
use cap_replies::RunLine;
use cap_value::AllocHandle;
use std::marker::Model;

/// Runs lines one after the other: on the sequential server, and in the transaction or the application that is
/// open.
#[derive(Drop)]
pub struct Interpreter<A: AllocHandle> {
    core: Core<A>,
    txn: Option<Open<A>>,
}

impl<A: AllocHandle> Model for Interpreter<A> {
    ghost use Rattle.std.specs.Coded.{codes};
    ghost use Rattle.cap_filter.specs.Rule.{coded_rule};
    ghost use Rattle.cap_interpreter.specs.Interpreter.{InterpreterState};

    ghost Value = { InterpreterState A };

    ghost coded = { Prim.hlevel (codes, coded_rule) };

    ghost view = { λ i. record { core = i.core; txn = i.txn } };
}

impl<A: AllocHandle> Interpreter<A> {
    /// An empty server, and nothing that is open.
    pub fn new(alloc: A) -> Self
        ensures { IsAt begin_course result }
    {
        cap_core::laws::legal_histories_grow::<A>();
        cap_core::laws::fitting_histories_grow::<A>();
        Interpreter {
            core: Core::new(alloc),
            txn: None,
        }
    }

    /// The number of events of the history.
    pub fn events(&self) -> u64
        ensures { result ≡ self.now.core.events }
    {
        self.core.events()
    }

    /// Runs a line. Its reply is made in `made`, whose content is dropped, and appended to `output`, as a line.
    ///
    /// A command of the server takes effect once its reply is made: a line without a reply has no event. On an
    /// error what is open is undone, as SQLite may undo a transaction where it is out of memory (SQL As
    /// Understood By SQLite, "Transactions").
    pub fn run(
        &mut self,
        alloc: A,
        line: &RunLine<A>,
        made: &mut String<A>,
        output: &mut String<A>,
    ) -> Result<(), CallFault>
        // Wherever the lines before have led, the line leads on as the definitions say.
        ensures ran { (course : Course A) → IsAt course self.old → OnOk result (
            IsAt (after_line course line.now) self.new
            × (string_bytes output.new ≡ string_bytes output.old ++ on_a_line (text_of course line.now))) }
        // S2 comes exactly where the line carries out a command and the history is full. No call is overtaken.
        ensures fault { IfErr result (λ fault. MatchCallFault fault ⊤ (λ _. ⊥) (IsFull self.old line.now)) }
        ensures full { IsFull self.old line.now → result ≡ Err CallFault.HistoryFull }
        ensures unchanged { OnErr result (self.new ≡ record self.old { txn = None }) }
        ensures same { OnErr result (string_bytes output.new ≡ string_bytes output.old) }
    {
        match self.txn.take() {
            None => match run_alone(alloc, &mut self.core, line, made, output) {
                Ok(txn) => {
                    self.txn = txn;
                    Ok(())
                }
                Err(fault) => Err(fault),
            },
            Some(held) => match run_open(alloc, &mut self.core, held, line, made, output) {
                Ok(txn) => {
                    self.txn = txn;
                    Ok(())
                }
                Err(fault) => Err(fault),
            },
        }
    }
}
