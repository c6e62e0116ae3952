//! Scenarios that come of a number: loads that anybody can make again.

ghost use Rattle.std.specs.Prelude.{◌≡◌, ◌<◌, ◌*◌, ◌++◌, [], ◌∷◌, OnOk, IfOk};
ghost use Rattle.std.specs.String.{string_bytes};
ghost use Rattle.rk_model.specs.Text.Schedules.{text_of_lines};
ghost use Rattle.rk_scenario.specs.Loads.{next_number, after_draws, drawn, activity_drawn, body_line, create_line, next_job_line, obtain_line, work_line, release_line, send_line, body_lines, init_line, bodies_from, inits_from, load_text};
ghost use Rattle.rk_scenario.specs.declared.generator.TheConstants.{TASKS};

use rk_model::NoMemory;
use std::alloc::Global;

/// How many tasks a load has, besides the one that makes its semaphores.
const TASKS: u8 = 31;

/// The lines in front of the tasks' bodies: the processors and the limits, and the body that makes the semaphores.
const FRONT: &str = "rtems 1
cluster 2
cluster 2
cluster 2
cluster 2
ticks 10000
limit 1000000
body b0
sem.create BUS0 1 binary fifo mrsp 5 v0
sem.create BUS1 1 binary fifo mrsp 5 v0
sem.create BUS2 1 binary fifo mrsp 5 v0
sem.create BUS3 1 binary fifo mrsp 5 v0
sem.create INH0 1 binary priority inherit 0 v0
sem.create INH1 1 binary priority inherit 0 v0
sem.create INH2 1 binary priority inherit 0 v0
sem.create INH3 1 binary priority inherit 0 v0
end
";

/// The linear congruential generator from which the numbers of a load are drawn.
#[derive(Debug, Drop)]
struct Generator {
    number: u32,
}

/// What a task of a load does again and again.
#[derive(Clone, Copy, Debug, PartialEq, Eq)]
struct Activity {
    /// The ticks of its period.
    period: u32,
    /// The index of the semaphore that it obtains.
    semaphore: u8,
    /// The ticks that it computes as the semaphore's owner.
    owning: u32,
    /// The ticks that it computes afterwards.
    afterwards: u32,
    /// The index of the task to which it sends an event.
    receiver: u8,
}

impl Generator {
    /// Draws one of so many numbers, the least of which is 0.
    fn draw(&mut self, choices: u32) -> u32
        requires { 0 < choices }
        ensures next { self.new.number ≡ next_number self.old.number }
        ensures drawn { result ≡ drawn self.new.number choices }
        ensures below { result < choices }
    {
        self.number = ((1_664_525 * u64::from(self.number) + 1_013_904_223) % 4_294_967_296) as u32;
        self.number / 65_536 % choices
    }

    /// Draws the activity of a task.
    #[tactic(auto, unfolding(crate::specs::Loads::after_draws))]
    fn draw_activity(&mut self) -> Activity
        ensures drawn { result ≡ activity_drawn self.old.number }
        ensures next { self.new.number ≡ after_draws self.old.number 5 }
    {
        let period = 20 + 10 * self.draw(20);
        let semaphore = 1 + self.draw(8) as u8;
        let owning = 1 + self.draw(4);
        let afterwards = 1 + self.draw(8);
        let receiver = 1 + self.draw(32) as u8;
        Activity {
            period,
            semaphore,
            owning,
            afterwards,
            receiver,
        }
    }
}

/// Adds the line that begins the body of the task of an index.
#[tactic(auto, unfolding(crate::specs::Loads::body_line))]
fn add_body_line(text: &mut String, index: u8) -> Result<(), NoMemory>
    ensures { OnOk result (string_bytes text.new ≡ string_bytes text.old ++ text_of_lines (body_line index ∷ [])) }
{
    writeln!(text, "body b{index}")?;
    Ok(())
}

/// Adds the line that creates the period of the task of an index.
fn add_create(text: &mut String, index: u8) -> Result<(), NoMemory>
    ensures { OnOk result (string_bytes text.new ≡ string_bytes text.old ++ text_of_lines (create_line index ∷ [])) }
{
    writeln!(text, "period.create P{index:03} v0")?;
    Ok(())
}

/// Adds the line that begins the next job of a period of so many ticks.
#[tactic(auto, unfolding(crate::specs::Loads::next_job_line))]
fn add_next_job(text: &mut String, ticks: u32) -> Result<(), NoMemory>
    ensures { OnOk result (string_bytes text.new ≡ string_bytes text.old ++ text_of_lines (next_job_line ticks ∷ [])) }
{
    writeln!(text, "period.period v0 {ticks}")?;
    Ok(())
}

/// Adds the line that obtains the semaphore of an index.
#[tactic(auto, unfolding(crate::specs::Loads::obtain_line))]
fn add_obtain(text: &mut String, semaphore: u8) -> Result<(), NoMemory>
    ensures { OnOk result (string_bytes text.new ≡ string_bytes text.old ++ text_of_lines (obtain_line semaphore ∷ [])) }
{
    writeln!(text, "sem.obtain 0x1a01000{semaphore} 0")?;
    Ok(())
}

/// Adds the line that releases the semaphore of an index.
#[tactic(auto, unfolding(crate::specs::Loads::release_line))]
fn add_release(text: &mut String, semaphore: u8) -> Result<(), NoMemory>
    ensures { OnOk result (string_bytes text.new ≡ string_bytes text.old ++ text_of_lines (release_line semaphore ∷ [])) }
{
    writeln!(text, "sem.release 0x1a01000{semaphore}")?;
    Ok(())
}

/// Adds a line of work.
#[tactic(auto, unfolding(crate::specs::Loads::work_line))]
fn add_work(text: &mut String, ticks: u32) -> Result<(), NoMemory>
    ensures { OnOk result (string_bytes text.new ≡ string_bytes text.old ++ text_of_lines (work_line ticks ∷ [])) }
{
    writeln!(text, "work {ticks}")?;
    Ok(())
}

/// Adds the line that sends an event to the task of an index.
fn add_send(text: &mut String, receiver: u8) -> Result<(), NoMemory>
    ensures { OnOk result (string_bytes text.new ≡ string_bytes text.old ++ text_of_lines (send_line receiver ∷ [])) }
{
    writeln!(text, "event.send 0x0a0100{receiver:02x} 1")?;
    Ok(())
}

/// Adds the body of the task of an index.
fn add_body(text: &mut String, index: u8, activity: &Activity) -> Result<(), NoMemory>
    ensures { OnOk result (string_bytes text.new ≡ string_bytes text.old ++ text_of_lines (body_lines index activity.now)) }
{
    add_body_line(text, index)?;
    add_create(text, index)?;
    add_next_job(text, activity.period)?;
    add_obtain(text, activity.semaphore)?;
    add_work(text, activity.owning)?;
    add_release(text, activity.semaphore)?;
    add_work(text, activity.afterwards)?;
    add_send(text, activity.receiver)?;
    text.push_str("goto 2\nend\n")?;
    Ok(())
}

/// Adds the line that starts a task.
fn add_init(text: &mut String, index: u8, cluster: u8, priority: u8) -> Result<(), NoMemory>
    ensures { OnOk result (string_bytes text.new ≡ string_bytes text.old ++ text_of_lines (init_line index cluster priority ∷ [])) }
{
    writeln!(text, "init T{index:03} {cluster} {priority} b{index}")?;
    Ok(())
}

/// Adds the bodies of the tasks.
fn add_bodies(text: &mut String, generator: &mut Generator) -> Result<(), NoMemory>
    ensures text { OnOk result (string_bytes text.new ≡ string_bytes text.old ++ text_of_lines (bodies_from 1 generator.old.number)) }
    ensures next { OnOk result (generator.new.number ≡ after_draws generator.old.number (5 * TASKS)) }
{
    for index in 1..TASKS + 1 {
        let activity = generator.draw_activity();
        add_body(text, index, &activity)?;
    }
    Ok(())
}

/// Adds the lines that start the tasks.
fn add_inits(text: &mut String, generator: &mut Generator) -> Result<(), NoMemory>
    ensures { OnOk result (string_bytes text.new ≡ string_bytes text.old ++ text_of_lines (inits_from 1 generator.old.number)) }
{
    for index in 1..TASKS + 1 {
        let priority = 10 + generator.draw(100) as u8;
        add_init(text, index, index % 4, priority)?;
    }
    Ok(())
}

/// The load of a number: the text of a scenario in which 32 tasks on eight processors, in four clusters, share
/// eight semaphores. One task makes the semaphores; each other one has a period, in which it works as a
/// semaphore's owner and then without, and sends an event. How long and with whom is drawn from the number, and so
/// are the tasks' priorities.
///
/// # Errors
///
/// `NoMemory` where memory ran out.
pub fn generate(alloc: Global, n: u32) -> Result<Vec<u8>, NoMemory>
    ensures { IfOk result (λ text. text.items ≡ load_text n) }
{
    let mut text = String::new(alloc);
    let mut generator = Generator { number: n };
    text.push_str(FRONT)?;
    add_bodies(&mut text, &mut generator)?;
    add_init(&mut text, 0, 0, 1)?;
    add_inits(&mut text, &mut generator)?;
    Ok(text.into_bytes())
}
