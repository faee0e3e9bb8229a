// How long a schedule is.
ghost use Rattle.std.specs.Prelude.{◌≡◌, ◌≤◌};
ghost use Rattle.courses.specs.Schedule.{schedule_length};

// How many bytes a schedule of that form takes.
pub fn schedule_length(form: u32, actions: usize) -> usize
    requires { actions ≤ 2048 }
    ensures { (result ≡ schedule_length form actions) × (4 ≤ result) }
{
    if form == 1 {
        return 4 + 2 * actions;
    }
    4 + (20 * actions + 7) / 8
}
