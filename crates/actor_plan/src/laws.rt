// Laws of programs and agendas.
ghost use Rattle.std.specs.Prelude.{◌≡◌, ◌<◌, ◌++◌, ℕ, Bool, List, length, Some};
ghost use Rattle.bt_ast.specs.declared.attached.Attached.{Attached};
ghost use Rattle.bt_ast.specs.declared.attached.Tick.{Tick};
ghost use Rattle.bt_core.specs.declared.context.Context.{Context};
ghost use Rattle.bt_core.specs.declared.step.Reply.{Reply};
ghost use Rattle.bt_core.specs.Interaction.{Interaction, and_then, calls, value_under};
ghost use Rattle.bt_core.specs.Ports.{Setting};
ghost use Rattle.recordings.specs.declared.recording.Entry.{Entry};
ghost use Rattle.recordings.specs.declared.recording.Recording.{Recording};
ghost use Rattle.recordings.specs.Recordings.{IsValidRecording};
ghost use Rattle.actor_plan.specs.declared.agenda.AgendaItem.{AgendaItem};
ghost use Rattle.actor_plan.specs.Agendas.{AreInTurn, IsAgenda, agenda_of, entries_of};
ghost use Rattle.actor_plan.specs.Plans.{Plan, CanRun, HasBodies, OnlyAsks};
ghost use Rattle.actor_plan.specs.Programs.{actor_program, items_program, then_program};

/// What is told of a run under replies that suffice is told under every longer list that begins with them.
pub fn runs_stay()
    ensures calls { (run : Interaction ℕ) (replies more : List Reply) (count : ℕ) → value_under run replies ≡ Some count →
        calls run (replies ++ more) ≡ calls run replies }
    ensures count { (run : Interaction ℕ) (replies more : List Reply) (count : ℕ) → value_under run replies ≡ Some count →
        value_under run (replies ++ more) ≡ Some count }
{}

/// The program of some items and then others is the program of the first ones and, where it goes on to its end, that of the
/// others; the counts of instructions are added.
pub fn programs_join()
    ensures { (checks : Bool) (work : AgendaItem → Interaction ℕ) (front back : List AgendaItem) →
        items_program checks work (front ++ back) ≡ and_then (items_program checks work front) (then_program (items_program checks work back)) }
{}

/// The program of an actor asks only what a port with as many ticks as are attached can do, where the runs of bodies do so.
pub fn programs_are_admitted()
    ensures { (setting : Setting) (plan : Plan) (exits : Bool) (r : Recording) (attached : Attached) → IsValidRecording r →
        HasBodies plan r.formats attached → setting.ticks ≡ length attached.ticks →
        ((body : ℕ) (context : Context) (payload : List ℕ) → CanRun plan body context payload → OnlyAsks setting (plan.run body context payload)) →
        OnlyAsks setting (actor_program plan exits r attached) }
{}

/// The agenda of a CPU has all its entries and all ticks, each once and in their order, and each tick stands after the entries
/// with a smaller time and before those with its time or more; and no other list does.
pub fn agendas_are_one()
    ensures is { (r : Recording) (attached : Attached) (cpu : ℕ) → IsValidRecording r → AreInTurn attached.ticks → cpu < length r.cpus →
        IsAgenda attached.ticks (entries_of r cpu) (agenda_of r attached cpu) }
    ensures only { (ticks : List Tick) (entries : List Entry) (one other : List AgendaItem) →
        IsAgenda ticks entries one → IsAgenda ticks entries other → one ≡ other }
{}
