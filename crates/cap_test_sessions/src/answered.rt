//! A blob that is applied by answering each conflict as a policy does.
ghost use Rattle.cap_value.specs.Memory.{AnswersUnlessMemory};
ghost use Rattle.cap_apply.specs.Apply as whole;

use cap_applier::Applier;
use cap_apply::{Applied, Policy};
use cap_codec::Contents;
use cap_database::Database;
use cap_value::{AllocHandle, Fault, Refusal};

/// What an applier leaves whose conflicts a policy answers: what `cap_apply::apply` leaves, refusals among it.
pub fn answered_by_a_policy<A: AllocHandle>(
    alloc: A,
    database: &Database<A>,
    blob: Contents<A>,
    policy: Policy,
) -> Result<Applied<A>, Fault<Refusal>>
    ensures { AnswersUnlessMemory result (whole.apply database.now blob policy) }
{
    cap_applier::laws::answers_of_a_policy_apply_the_blob::<A>();
    Applier::new(alloc, database, blob, None)?.answer_all(policy)
}
