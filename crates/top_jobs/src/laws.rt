// The laws on the meaning of files, and on the sizes of typed scripts.
ghost use Rattle.std.specs.Prelude.{◌≡◌, List, ℕ};
ghost use Rattle.bt_ast.specs.declared.attached.BodyId.{BodyId};
ghost use Rattle.bt_ast.specs.declared.probe.Script.{Script};
ghost use Rattle.bt_types.specs.Script.{IsTypedScript};
ghost use Rattle.run_output.specs.declared.job.Job.{Job};
ghost use Rattle.script_programs.specs.Sizes.{first_size_fault};
ghost use Rattle.event_layout.specs.declared.format.Format.{Format};
ghost use Rattle.typed_tree.specs.declared.script.Typed.{Typed};
ghost use Rattle.top_jobs.specs.Jobs.{IsJobFor, meaning_in};
ghost use Rattle.top_jobs.specs.Meanings.{IsMeaningFor, Meaning};
ghost use Rattle.top_refusals.specs.Orders.{OperandFile};

/// Files have one meaning at most: one recording, what the one tree of the script is attached to in it, and one typed script. And the job that is
/// answered for files has their meaning. So all that is said of a meaning of the files speaks of the same one, and of that of the job.
pub fn files_have_one_meaning()
    ensures one { (files : List OperandFile) (contents : List (List ℕ)) (one other : Meaning)
        → IsMeaningFor files contents one → IsMeaningFor files contents other → one ≡ other }
    ensures of_job { (files : List OperandFile) (contents : List (List ℕ)) (job : Job)
        → IsJobFor files contents job → IsMeaningFor files contents (meaning_in job) }
{
    rec_format::laws::one_recording();
    bt_lexer::laws::one_answer();
    bt_grammar::laws::one_answer();
    bt_attach::laws::attachments_are_one();
    job_laws::typing_laws::scripts_have_one_typing();
}

/// Of all typed scripts of one script over the same formats and bodies the same body, if any, is the first that needs too large a
/// frame or too large a code, and it needs as many bytes or slots in each: the fault is a function of the script and of what it is
/// attached to. The formats may be any.
pub fn scripts_have_one_size()
    ensures { (script : Script) (formats : List Format) (bodies : List BodyId) (one other : Typed) →
        IsTypedScript script formats bodies one → IsTypedScript script formats bodies other →
        first_size_fault 0 one.bodies ≡ first_size_fault 0 other.bodies }
{}
