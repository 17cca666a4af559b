//! Steps: inputs, edges and settling. In a round methods run on the same signals, and then what they asked for takes effect
//! together (IEEE 1666-2011, 4.2.1: evaluation and update phases).
ghost use Rattle.std.specs.Prelude.{◌≡◌, Some, Err, IfErr};

use crate::runner::{RunStop, Runner};
use scc_base::{NoMemory, lost};
use scc_bits::Word;
use scc_machine_code::NULL;

/// Which processes an edge resumes.
#[derive(Clone, Copy)]
enum Ticking<'b> {
    All,
    /// Those of the clocks whose ports have these numbers.
    Of(&'b [u32]),
    /// These, in this order.
    These(&'b [u32]),
}

/// How a design settles.
#[derive(Clone, Copy)]
enum Settling<'b> {
    /// As many rounds of all combinational methods as there are, and one more.
    Whole,
    /// Rounds of these methods, until one changes no signal.
    Given(&'b [u32]),
    /// Rounds of the methods whose listed signals changed since they ran.
    Due,
}

impl<'a> Runner<'a> {
    /// Sets the inputs of the top but the clocks, in construction order; threads whose asynchronous reset has its level start
    /// again; then the design settles: as many rounds of all combinational methods as there are, and one more.
    pub fn settle(&mut self, inputs: &[Word]) -> Result<(), RunStop>
        ensures stops { IfErr result (λ e. self.new.stopped ≡ Some e) }
        ensures stopped { (e : RunStop) → self.old.stopped ≡ Some e → result ≡ Err e }
    {
        self.settled(inputs, Settling::Whole)
    }

    /// As `settle`, by rounds of the methods in `order`, in which each combinational one stands at least once, until a round changes
    /// no signal.
    pub fn settle_in(&mut self, inputs: &[Word], order: &[u32]) -> Result<(), RunStop>
        ensures stops { IfErr result (λ e. self.new.stopped ≡ Some e) }
        ensures stopped { (e : RunStop) → self.old.stopped ≡ Some e → result ≡ Err e }
    {
        self.settled(inputs, Settling::Given(order))
    }

    /// As `settle`, by rounds of those methods alone whose listed signals changed since they ran.
    pub fn settle_due(&mut self, inputs: &[Word]) -> Result<(), RunStop>
        ensures stops { IfErr result (λ e. self.new.stopped ≡ Some e) }
        ensures stopped { (e : RunStop) → self.old.stopped ≡ Some e → result ≡ Err e }
    {
        self.settled(inputs, Settling::Due)
    }

    /// All clocked processes resume in construction order on the signals as they are; what they ask for takes effect together; the
    /// design settles.
    pub fn edge(&mut self) -> Result<(), RunStop>
        ensures stops { IfErr result (λ e. self.new.stopped ≡ Some e) }
        ensures stopped { (e : RunStop) → self.old.stopped ≡ Some e → result ≡ Err e }
    {
        self.edged(Ticking::All, Settling::Whole)
    }

    /// As `edge`, by the clocked processes in the order of `clocked`, and rounds as in `settle_in`.
    pub fn edge_in(&mut self, clocked: &[u32], order: &[u32]) -> Result<(), RunStop>
        ensures stops { IfErr result (λ e. self.new.stopped ≡ Some e) }
        ensures stopped { (e : RunStop) → self.old.stopped ≡ Some e → result ≡ Err e }
    {
        self.edged(Ticking::These(clocked), Settling::Given(order))
    }

    /// As `edge`, of the processes alone whose clocks have the ports of these numbers; nothing where there is no clock.
    pub fn edge_of(&mut self, clocks: &[u32]) -> Result<(), RunStop>
        ensures stops { IfErr result (λ e. self.new.stopped ≡ Some e) }
        ensures stopped { (e : RunStop) → self.old.stopped ≡ Some e → result ≡ Err e }
    {
        self.edged(Ticking::Of(clocks), Settling::Whole)
    }

    /// As `edge`, with rounds as in `settle_due`.
    pub fn edge_due(&mut self) -> Result<(), RunStop>
        ensures stops { IfErr result (λ e. self.new.stopped ≡ Some e) }
        ensures stopped { (e : RunStop) → self.old.stopped ≡ Some e → result ≡ Err e }
    {
        self.edged(Ticking::All, Settling::Due)
    }

    /// As `edge_of`, with rounds as in `settle_due`.
    pub fn edge_due_of(&mut self, clocks: &[u32]) -> Result<(), RunStop>
        ensures stops { IfErr result (λ e. self.new.stopped ≡ Some e) }
        ensures stopped { (e : RunStop) → self.old.stopped ≡ Some e → result ≡ Err e }
    {
        self.edged(Ticking::Of(clocks), Settling::Due)
    }

    fn settled(&mut self, inputs: &[Word], settling: Settling<'_>) -> Result<(), RunStop>
        ensures stops { IfErr result (λ e. self.new.stopped ≡ Some e) }
        ensures stopped { (e : RunStop) → self.old.stopped ≡ Some e → result ≡ Err e }
    {
        if let Some(stop) = self.stopped {
            return Err(stop);
        }
        let done = self.try_settle(inputs, settling);
        self.kept(done)
    }

    fn edged(&mut self, ticking: Ticking<'_>, settling: Settling<'_>) -> Result<(), RunStop>
        ensures stops { IfErr result (λ e. self.new.stopped ≡ Some e) }
        ensures stopped { (e : RunStop) → self.old.stopped ≡ Some e → result ≡ Err e }
    {
        if let Some(stop) = self.stopped {
            return Err(stop);
        }
        let done = self.try_edge(ticking, settling);
        self.kept(done)
    }

    // Keeps an error for all later calls.
    fn kept(&mut self, done: Result<(), RunStop>) -> Result<(), RunStop>
        ensures same { result ≡ done }
        ensures stops { IfErr result (λ e. self.new.stopped ≡ Some e) }
    {
        if let Err(stop) = done {
            self.stopped = Some(stop);
        }
        done
    }

    fn try_settle(&mut self, inputs: &[Word], settling: Settling<'_>) -> Result<(), RunStop> {
        self.set_inputs(inputs)?;
        self.restart_all()?;
        self.take_requests()?;
        self.rounds(settling)
    }

    fn set_inputs(&mut self, inputs: &[Word]) -> Result<(), NoMemory> {
        let mut at: usize = 0;
        for word in inputs {
            let Some(slot) = self.inputs.get(at).copied() else {
                return Ok(());
            };
            if self.machine.store.word(slot) != word.bits {
                self.machine.store.set_word(slot, word.bits);
                self.notify(slot)?;
            }
            at = at.saturating_add(1);
        }
        Ok(())
    }

    // The threads whose asynchronous reset has its level start again.
    fn restart_all(&mut self) -> Result<(), RunStop> {
        for at in 0..self.asynchronous.len() {
            let Some(number) = self.asynchronous.get(at).copied() else {
                return Err(RunStop::from(lost()));
            };
            if self.is_active(self.reset_at(number)?) {
                self.resume(number)?;
            }
        }
        Ok(())
    }

    fn try_edge(&mut self, ticking: Ticking<'_>, settling: Settling<'_>) -> Result<(), RunStop> {
        match ticking {
            Ticking::All => self.tick()?,
            Ticking::These(list) => self.resume_all(list)?,
            Ticking::Of([]) => return Ok(()),
            Ticking::Of(clocks) => {
                self.mark(clocks, true);
                let done = self.tick_marked();
                self.mark(clocks, false);
                done?;
            }
        }
        self.take_requests()?;
        self.rounds(settling)
    }

    fn tick(&mut self) -> Result<(), RunStop> {
        for at in 0..self.clocked.len() {
            let Some(number) = self.clocked.get(at).copied() else {
                return Err(RunStop::from(lost()));
            };
            self.resume(number)?;
        }
        Ok(())
    }

    fn mark(&mut self, clocks: &[u32], ticks: bool) {
        for clock in clocks {
            if let Some(tick) = self.ticks.get_mut(*clock as usize) {
                *tick = ticks;
            }
        }
    }

    fn tick_marked(&mut self) -> Result<(), RunStop> {
        for at in 0..self.clocked.len() {
            let Some(number) = self.clocked.get(at).copied() else {
                return Err(RunStop::from(lost()));
            };
            if self.ticks_at(number) {
                self.resume(number)?;
            }
        }
        Ok(())
    }

    // Whether the clock of a process has its edge.
    fn ticks_at(&self, number: u32) -> bool {
        let Some(process) = self.processes.get(number as usize) else {
            return false;
        };
        match process.clock {
            Some(clock) => self.ticks.get(clock as usize).copied().unwrap_or(false),
            None => false,
        }
    }

    fn rounds(&mut self, settling: Settling<'_>) -> Result<(), RunStop> {
        for _ in 0..=self.combs.len() {
            let goes_on = match settling {
                Settling::Whole => self.whole_round()?,
                Settling::Given(order) => self.given_round(order)?,
                Settling::Due => self.due_round()?,
            };
            if !goes_on {
                return Ok(());
            }
        }
        Ok(())
    }

    fn whole_round(&mut self) -> Result<bool, RunStop> {
        self.due.clear();
        for at in 0..self.combs.len() {
            let Some(number) = self.combs.get(at).copied() else {
                return Err(RunStop::from(lost()));
            };
            self.resume(number)?;
        }
        self.take_requests()?;
        Ok(true)
    }

    // Whether a signal changes.
    fn given_round(&mut self, order: &[u32]) -> Result<bool, RunStop> {
        self.due.clear();
        self.resume_all(order)?;
        Ok(self.take_requests()?)
    }

    // Whether a signal changes.
    fn due_round(&mut self) -> Result<bool, RunStop> {
        for at in 0..self.due.len() {
            let Some(number) = self.due.get(at).copied() else {
                return Err(RunStop::from(lost()));
            };
            self.resume(number)?;
        }
        self.due.clear();
        Ok(self.take_requests()?)
    }

    // All requests take effect; whether a signal changes.
    fn take_requests(&mut self) -> Result<bool, NoMemory> {
        let mut changed = false;
        for _ in 0..usize::MAX {
            let Some((slot, changes)) = self.machine.store.take_request() else {
                return Ok(changed);
            };
            if changes {
                changed = true;
                self.notify(slot)?;
            }
        }
        Err(lost())
    }

    // The methods that listen to a signal are to run.
    fn notify(&mut self, slot: u32) -> Result<(), NoMemory> {
        let row = self.machine.store.link(slot);
        if row == NULL {
            return Ok(());
        }
        let listening = match self.listeners.get(row as usize) {
            Some(list) => list.len(),
            None => return Err(lost()),
        };
        for at in 0..listening {
            let Some(number) = self.listener(row, at) else {
                return Err(lost());
            };
            self.make_due(number)?;
        }
        Ok(())
    }

    fn listener(&self, row: u32, at: usize) -> Option<u32> {
        self.listeners.get(row as usize)?.get(at).copied()
    }
}
