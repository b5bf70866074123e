// Laws of the machine over lists of commands. They compute nothing: each contract is a fact about every list.
ghost use Rattle.std.specs.Prelude.{◌≡◌, ℕ, true, List, ◌∷◌, ◌++◌, Some};
ghost use Rattle.job_core.specs.Job.{StoredJob};
ghost use Rattle.job_core.specs.Jobs.{SameJobs, IsKept, jobs_of, job_of};
ghost use Rattle.job_core.specs.Machine.{reply_to, jobs_after, answers, jobs_after_all, commands_of, answers_to, SameAnswer};
ghost use Rattle.job_core.specs.declared.command.Command.{Command};
ghost use Rattle.job_core.specs.declared.job.Made.{Made};

/// A repeated key acts once. After any commands among which an `Add` came, another with the same owner, key and request
/// changes no job, and is answered as the first was: by the head of the same job, or by the same refusal.
pub fn repeated_keys_act_once()
    ensures jobs { (owner key request : List ℕ) (made again : Made) (first between : List Command) (jobs : List StoredJob) →
        let then = jobs_after_all (first ++ Command.Add owner key request made ∷ between) jobs in
        jobs_after (Command.Add owner key request again) then ≡ then }
    ensures answer { (owner key request : List ℕ) (made again : Made) (first between : List Command) (jobs : List StoredJob) →
        let then = jobs_after_all (first ++ Command.Add owner key request made ∷ between) jobs in
        SameAnswer (reply_to (Command.Add owner key request made) (jobs_after_all first jobs))
        (reply_to (Command.Add owner key request again) then) }
{}

/// What an owner is answered, and the jobs that the owner has in the end, are what they would be if no one else had
/// any job or sent any command.
pub fn owners_are_apart()
    ensures answers { (owner : List ℕ) (commands : List Command) (jobs : List StoredJob) →
        answers_to owner (answers commands jobs) ≡ answers (commands_of owner commands) (jobs_of owner jobs) }
    ensures jobs { (owner : List ℕ) (commands : List Command) (jobs : List StoredJob) →
        jobs_of owner (jobs_after_all commands jobs) ≡ jobs_after_all (commands_of owner commands) (jobs_of owner jobs) }
{}

/// The order of jobs of different owners is never seen: lists with the same jobs of each owner give the same answer
/// to a command, and have the same jobs of each owner after it.
pub fn order_between_owners_is_unseen()
    ensures reply { (command : Command) (jobs others : List StoredJob) →
        SameJobs jobs others → reply_to command jobs ≡ reply_to command others }
    ensures jobs { (command : Command) (jobs others : List StoredJob) →
        SameJobs jobs others → SameJobs (jobs_after command jobs) (jobs_after command others) }
{}

/// Closing a closed job changes nothing.
pub fn closing_again_changes_nothing()
    ensures { (owner : List ℕ) (number : ℕ) (jobs : List StoredJob) (job : StoredJob) →
        IsKept jobs → job_of owner number jobs ≡ Some job → job.head.closed ≡ true →
        SameJobs (jobs_after (Command.Close owner number) jobs) jobs }
{}
