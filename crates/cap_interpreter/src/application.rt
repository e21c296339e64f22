//! Applications that stop at each conflict, which lines answer.
ghost use Rattle.std.specs.Prelude.{◌≡◌, None, Err, IfOk, is_some};
ghost use Rattle.cap_value.specs.Memory.{AnswersUnlessMemory};
ghost use Rattle.cap_value.specs.declared.refusal.Refusal.{Refusal};
ghost use Rattle.cap_filter.specs.Rule.{all};
ghost use Rattle.cap_database.specs.Tables.{Tables};
ghost use Rattle.cap_applier.specs.Applier.{IsAtEnd, answered, begun, merged_at, met};
ghost use Rattle.cap_applier.specs.Looked.{KeepsTo};
ghost use Rattle.cap_applier.specs.Merge.{refused_merge};
ghost use Rattle.cap_interpreter.specs.Application.{answered_from, opened, passed_in, put_in, stop_from};
ghost use Rattle.cap_interpreter.specs.Application.{stopped, transaction_left};

use cap_applier::{Applier, MergeRefusal, chosen_of};
use cap_apply::{Answer, Report};
use cap_codec::Contents;
use cap_database::{Database, Snapshot};
use cap_filter::{Filter, TableFilter};
use cap_row::Row;
use cap_txn::Txn;
use cap_value::{AllocHandle, Fault, OutOfMemory, Refusal};
use std::marker::Model;

// An application on a snapshot, and whether it has a filter.
pub(crate) struct Application<A: AllocHandle> {
    base: Snapshot<A>,
    applier: Applier<A>,
    filtered: bool,
}

impl<A: AllocHandle> Model for Application<A> {
    ghost use Rattle.std.specs.Coded.{codes};
    ghost use Rattle.std.specs.Prelude.{◌≡◌, is_some};
    ghost use Rattle.cap_filter.specs.Rule.{coded_rule};
    ghost use Rattle.cap_applier.specs.Looked.{KeepsTo};
    ghost use Rattle.cap_interpreter.specs.Application.{ApplicationState};

    ghost Value = { ApplicationState A };

    ghost coded = { Prim.hlevel (codes, coded_rule) };

    ghost view = { λ a. record { base = a.base; applier = a.applier } };

    ghost invariant = { λ a.
        (a.filtered ≡ is_some a.applier.filter) × KeepsTo a.base.database a.applier };
}

// A derived `Drop` would be opened in each caller.
impl<A: AllocHandle> Drop for Application<A> {
    fn drop(self) {
        let Application {
            base: _,
            applier: _,
            filtered: _,
        } = self;
    }
}

impl<A: AllocHandle> Application<A> {
    // Opens an application of a blob, to the tables that the filter accepts, and goes on to the first conflict.
    pub(crate) fn begin(
        alloc: A,
        base: Snapshot<A>,
        blob: &Contents<A>,
        filter: &Option<TableFilter<A>>,
    ) -> Result<Self, OutOfMemory>
        ensures { IfOk result (λ app. app ≡ opened base blob.now filter.now) }
    {
        let filtered = filter.is_some();
        let applier = begun_on(alloc, base.database(), blob, filter)?;
        Ok(Application {
            base,
            applier,
            filtered,
        })
    }

    // Where it stands.
    pub(crate) fn applier(&self) -> &Applier<A>
        ensures { result.now ≡ self.now.applier }
    {
        &self.applier
    }

    // Whether it stands at a conflict.
    pub(crate) fn is_at_conflict(&self) -> bool
        ensures { result ≡ is_some (met self.now.applier) }
    {
        self.applier.conflict().is_some()
    }

    // Answers the conflict, and goes on to the next one.
    pub(crate) fn answer(self, answer: Answer) -> Result<Self, Fault<Refusal>>
        ensures { AnswersUnlessMemory result (answered_from answer self) }
    {
        let Application {
            base,
            applier,
            filtered,
        } = self;
        match answered(applier, answer) {
            Ok(applier) => Ok(Application {
                base,
                applier,
                filtered,
            }),
            Err(fault) => Err(fault),
        }
    }

    // Why the row may not be put in place of the change, if it may not.
    pub(crate) fn refused_put(&self, row: &Row<A>) -> Result<Option<MergeRefusal>, OutOfMemory>
        ensures { IfOk result (λ refusal. refusal ≡ refused_merge self.now.applier row.now) }
    {
        self.applier.merge_refusal(row)
    }

    // Puts a row in place of the change, and goes on to the next conflict.
    pub(crate) fn put(self, row: Row<A>) -> Result<Self, OutOfMemory>
        requires { refused_merge self.applier row ≡ None }
        ensures { IfOk result (λ app. app ≡ put_in row self) }
    {
        let Application {
            base,
            applier,
            filtered,
        } = self;
        let applier = merged(applier, row)?;
        Ok(Application {
            base,
            applier,
            filtered,
        })
    }

    // The transaction that makes what it leaves.
    pub(crate) fn transaction(&self) -> Result<Txn<A>, Fault<Refusal>>
        ensures { AnswersUnlessMemory result (transaction_left self.now) }
    {
        self.applier.transaction(&self.base)
    }

    // That transaction is never refused.
    pub(crate) fn is_committed(&self)
        ensures { (why : Refusal) → transaction_left self.now ≡ Err why → ⊥ }
    {
        cap_applier::laws::a_transaction_leaves_what_the_application_left::<A>();
        self.base.database().sound_rows_law();
        self.applier.applied().database().sound_rows_law();
    }

    // How many groups it passed over, where it has a filter.
    pub(crate) fn passed(&self) -> Option<u64>
        ensures { result ≡ passed_in self.now.applier }
    {
        if self.filtered {
            Some(self.applier.passed().len() as u64)
        } else {
            None
        }
    }

    // Its report, at the end.
    pub(crate) fn into_report(self) -> Report<A>
        requires { met self.applier ≡ None }
        ensures { result ≡ self.applier.progress.applied.report }
    {
        let Application {
            base: _,
            applier,
            filtered: _,
        } = self;
        match applier.finish() {
            Ok(applied) => {
                let (_, _, report) = applied.into_parts();
                report
            }
            Err(_) => unreachable!(),
        }
    }
}

// Applies the changes before the first conflict, as the blob and the filter are.
fn begun_on<A: AllocHandle>(
    alloc: A,
    database: &Database<A>,
    blob: &Contents<A>,
    filter: &Option<TableFilter<A>>,
) -> Result<Applier<A>, OutOfMemory>
    ensures stop { IfOk result (λ applier. applier ≡ stop_from (begun database.now blob.now filter.now)) }
    ensures filter { IfOk result (λ applier. applier.filter ≡ filter.now) }
    ensures keeps { IfOk result (KeepsTo database.now) }
{
    cap_applier::laws::applications_keep_to_the_rows_that_they_look_at::<A>();
    let blob = copy_of_blob(alloc, blob)?;
    let filter = copy_of_filter(filter)?;
    let applier = Applier::new(alloc, database, blob, filter)?;
    stands(&applier);
    Ok(applier)
}

// Answers the conflict, and goes on to the next one.
fn answered<A: AllocHandle>(
    applier: Applier<A>,
    answer: Answer,
) -> Result<Applier<A>, Fault<Refusal>>
    ensures stop { AnswersUnlessMemory result (stopped (answered answer applier)) }
    ensures filter { IfOk result (λ to. to.filter ≡ applier.filter) }
    ensures keeps { (base : Tables A) → KeepsTo base applier → IfOk result (KeepsTo base) }
{
    cap_applier::laws::applications_keep_to_the_rows_that_they_look_at::<A>();
    match applier.answer(answer) {
        Ok(to) => {
            stands(&to);
            Ok(to)
        }
        Err(fault) => Err(fault),
    }
}

// Puts a row in place of the change, and goes on to the next conflict.
fn merged<A: AllocHandle>(applier: Applier<A>, row: Row<A>) -> Result<Applier<A>, OutOfMemory>
    requires { refused_merge applier row ≡ None }
    ensures stop { IfOk result (λ to. to ≡ stop_from (merged_at (met applier) row applier)) }
    ensures filter { IfOk result (λ to. to.filter ≡ applier.filter) }
    ensures keeps { (base : Tables A) → KeepsTo base applier → IfOk result (KeepsTo base) }
{
    cap_applier::laws::applications_keep_to_the_rows_that_they_look_at::<A>();
    let to = applier.merge(row)?;
    stands(&to);
    Ok(to)
}

// It stands at a conflict or at the end.
fn stands<A: AllocHandle>(applier: &Applier<A>)
    ensures { met applier.now ≡ None → IsAtEnd applier.now }
{
    let _found = applier.conflict();
}

// The same blob, whose changes share their values.
fn copy_of_blob<A: AllocHandle>(alloc: A, blob: &Contents<A>) -> Result<Contents<A>, OutOfMemory>
    ensures { IfOk result (λ copy. copy ≡ blob.now) }
{
    let every = every_table();
    let chosen = chosen_of(alloc, &every, blob)?;
    Ok(chosen.contents)
}

// The filter that accepts every table.
fn every_table<A: AllocHandle>() -> TableFilter<A>
    ensures { result ≡ all }
{
    match TableFilter::new(Filter::All) {
        Ok(every) => every,
        Err(_) => unreachable!(),
    }
}

fn copy_of_filter<A: AllocHandle>(
    filter: &Option<TableFilter<A>>,
) -> Result<Option<TableFilter<A>>, OutOfMemory>
    ensures { IfOk result (λ copy. copy ≡ filter.now) }
{
    match filter {
        Some(filter) => Ok(Some(filter.copy()?)),
        None => Ok(None),
    }
}
