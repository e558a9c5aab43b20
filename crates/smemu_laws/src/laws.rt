//! The laws of answers: but in a run on several cores, and where memory is wanting, nothing in them is left
//! to choose, and each text begins as the text of help says.
ghost use Rattle.std.specs.Prelude.{◌≡◌, ◌≢◌, ◌≤◌, ◌<◌, ◌↔◌, ℕ, List, Option, Some, None, length};
ghost use Rattle.sm_types.specs.declared.stop.Stop.{Stop};
ghost use Rattle.cmd_words.specs.Words.{Request, command_of};
ghost use Rattle.cmd_words.specs.declared.verb.Verb.TheVariants as verbs;
ghost use Rattle.ckpt_fields.specs.Rows.{checkpoint_fault};
ghost use Rattle.command_lines.specs.Texts.{HasFront, status_words};
ghost use Rattle.command_lines.specs.declared.status.Status.{Status};
ghost use Rattle.edge_io.specs.Files.{FilesView, Told};
ghost use Rattle.kernel_contexts.specs.State.{State};
ghost use Rattle.lone_runner.specs.LoneRun.{IsLoneRun};
ghost use Rattle.lone_runner.specs.Parting.{IsParting};
ghost use Rattle.lone_runner.specs.Rest.{IsPartingFrom, IsRestOfRun};
ghost use Rattle.lone_runner.specs.declared.fault.AloneFault.{AloneFault};
ghost use Rattle.smemu.specs.Answers.{IsOutcome};
ghost use Rattle.smemu.specs.Checkpoints.{IsCheckpointOf};
ghost use Rattle.smemu.specs.Ends.{Change, Defined, Stands};
ghost use Rattle.smemu.specs.Replay.{DiffersSo, IsReplayOf};
ghost use Rattle.smemu.specs.Requests.{files_named};
ghost use Rattle.smemu.specs.Resume.{rest_of, IsRestIn, IsResumeOf, RestDiffers, RestEnds};
ghost use Rattle.smemu_laws.specs.Asked.{checkpoint_asked, replay_asked, resume_asked};
ghost use Rattle.smemu_laws.specs.Names.{names_of, names_said};
ghost use Rattle.smemu_laws.specs.OneAnswer.{AreOneText};

/// Over files that are told, what words ask for has at most one answer, but for `run` and `bench` on several
/// cores: two texts that answer it are equal, and two files of an assembled program are loaded as one
/// program. So the report of a run on one core is a function of the program's file and the options, however
/// many threads it has. Of runs on several cores nothing is said here.
pub fn one_answer()
    ensures { (files : List ℕ → Option (List ℕ)) (words : List (List ℕ)) (request : Request)
        (text other : List ℕ) → command_of words ≡ Some request
        → IsOutcome (Some files) request Status.Done text → IsOutcome (Some files) request Status.Done other
        → AreOneText request.verb request.options.cores Status.Done text other }
{}

/// Over files that are told, every request has one ending in any two calls, but where a file could not be
/// read, or memory was wanting: one status, and with it one text, or two files that are loaded as one
/// program, or two texts of a run on several cores.
pub fn one_ending()
    ensures { (files : List ℕ → Option (List ℕ)) (request : Request) (change again : Change FilesView)
        (s t : Status) (text other : List ℕ)
        → change.before.told ≡ Some files → again.before.told ≡ Some files
        → s ≢ Status.ReadFault → t ≢ Status.ReadFault
        → s ≢ Status.OutOfMemory → t ≢ Status.OutOfMemory
        → Stands request change s text → Stands request again t other
        → (s ≡ t) × AreOneText request.verb request.options.cores s text other }
{}

/// No command but `debug` has written a part of its answer where memory is wanting.
pub fn only_debug_writes_before_memory()
    ensures { (request : Request) (change : Change FilesView) (text : List ℕ)
        → Stands request change Status.OutOfMemory text → request.verb ≡ verbs.Debug }
{}

/// What a command has written where memory is wanting is the front of a text that answers the request, which
/// there is.
pub fn a_front_before_memory()
    ensures { (files : List ℕ → Option (List ℕ)) (request : Request) (text : List ℕ)
        → IsOutcome (Some files) request Status.OutOfMemory text
        → (other : List ℕ) × IsOutcome (Some files) request Status.Done other × HasFront other text }
{}

/// The text that is written with a status begins as the text of help says of that status, but where memory is
/// wanting.
pub fn begins_as_help_says()
    ensures { (words : List (List ℕ)) (files : Change FilesView) (status : Status) (text : List ℕ)
        → status ≢ Status.Done → status ≢ Status.OutOfMemory → Defined words files status text
        → HasFront text (status_words status) }
{}

/// The law of room: each file that `asm` may write has at most 64 MiB, as it is loaded. So who gives that
/// much room gives enough, whichever file is written.
pub fn longest_program()
    ensures { (told : Told) (request : Request) (text : List ℕ) → request.verb ≡ verbs.Asm
        → IsOutcome told request Status.Done text → length text ≤ 67108864 }
{}

/// The files that words name are those whose names their operands say, in the same order: so as many as the
/// operands that are names.
pub fn each_name_is_a_file()
    ensures { (words : List (List ℕ)) (request : Request) → command_of words ≡ Some request
        → names_of (files_named request) ≡ names_said request.operands }
{}

/// From a checkpoint that was written of a thread of a report, the rest of the thread's run is told as its
/// replay is: both come to the same block, if to any; and where the report reads the checkpoint, which it
/// does where the budget was not used up there, to the same difference. And the runs are the same, not their
/// texts alone, in which memory is a digest: from what the report reads, the rest ends in just those states
/// and with just those stops in which the thread's run does, and parts from the events and the count in just
/// those ways.
pub fn resumes_as_replays()
    ensures read { (file report checkpoint : List ℕ) (thread count : ℕ)
        (c : IsCheckpointOf file report thread count checkpoint) → count < c.at.config.budget
        → checkpoint_fault c.at.said checkpoint ≡ None }
    ensures block { (file report checkpoint text : List ℕ) (thread count : ℕ)
        → IsCheckpointOf file report thread count checkpoint
        → IsResumeOf file report checkpoint text ↔ IsReplayOf file report thread text }
    ensures differs { (file report checkpoint text : List ℕ) (thread count : ℕ)
        → IsCheckpointOf file report thread count checkpoint → IsRestIn file report checkpoint
        → RestDiffers file report checkpoint text ↔ DiffersSo file report thread text }
    ensures ends { (file report checkpoint : List ℕ) (thread count : ℕ) (state : State) (stop : Stop)
        (c : IsCheckpointOf file report thread count checkpoint) (r : IsRestIn file report checkpoint)
        → IsRestOfRun r.at.config r.thread r.from r.used (rest_of r) state stop
        ↔ IsLoneRun c.at.program c.at.config thread c.at.block.journal state stop }
    ensures parts { (file report checkpoint : List ℕ) (thread count : ℕ) (fault : AloneFault)
        (c : IsCheckpointOf file report thread count checkpoint) (r : IsRestIn file report checkpoint)
        → IsPartingFrom r.at.config r.thread r.from r.used (rest_of r) r.at.block.count fault
        ↔ IsParting c.at.program c.at.config thread c.at.block.journal c.at.block.count fault }
{}

/// What is left of a thread's run, from a checkpoint that a report reads, ends at the count of the report's
/// block, with all events used, where it does not part from these.
pub fn rests_end_or_part()
    ensures { (file report checkpoint : List ℕ) (rest : IsRestIn file report checkpoint)
        → ((fault : AloneFault) → ¬ IsPartingFrom rest.at.config rest.thread rest.from rest.used
        (rest_of rest) rest.at.block.count fault)
        → RestEnds rest }
{}

/// What `ckpt` has written of a thread is resumed where the thread is replayed: over files that are told, of
/// which it is one, `resume` comes to the block to which `replay` comes.
pub fn resumed_where_replayed()
    ensures { (files : List ℕ → Option (List ℕ)) (program report name : List ℕ) (thread count : ℕ)
        (checkpoint text : List ℕ)
        → IsOutcome (Some files) (checkpoint_asked program report thread count) Status.Done checkpoint
        → files name ≡ Some checkpoint
        → IsOutcome (Some files) (replay_asked program report thread) Status.Done text
        → IsOutcome (Some files) (resume_asked program report name) Status.Done text }
{}
