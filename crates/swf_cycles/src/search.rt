// One walk over all calls finds the groups of those that call each other (Gabow, "Path-based depth-first search").
ghost use Rattle.std.specs.Prelude.{◌≡◌, ◌<◌, ◌≤◌, ◌∷◌, [], ℕ, IfOk, OnOk, IfSome, IfNone, length, map, replicate, get_or, drop, reverse, false};
ghost use Rattle.swf_cycles.specs.Cycles.{calls_itself};
ghost use Rattle.swf_cycles.specs.declared.search.Stage.TheVariants.{New};
ghost use Rattle.swf_cycles.specs.Search.{state_of, opened, begun, joined, closed, is_cycle, met, followed, advanced, NoneOf, is_closed_true, is_new};

use std::alloc::{AllocError, Global};

/// How far the search has come with one.
#[derive(Clone, Copy)]
enum Stage {
    /// It was not met yet.
    New,
    /// It is open, and stands at this place among those that are.
    Open(usize),
    /// It is closed, and known to come to call itself or not.
    Closed(bool),
}

/// A call that was not followed yet: the place of what calls among the open ones, and the number of what is called.
#[derive(Clone, Copy)]
struct Waiting {
    from: usize,
    to: usize,
}

/// How far the search has come. Those that are open stand in groups, each of which starts at a place: all in a group come to call
/// each other, and those of a later group.
#[derive(Drop)]
struct Search {
    stages: Vec<Stage>,
    stack: Vec<usize>,
    starts: Vec<usize>,
    waiting: Vec<Waiting>,
}

impl Search {
    // Nothing was met, of so many.
    fn none(alloc: Global, count: usize) -> Result<Search, AllocError>
        ensures { IfOk result (λ s. state_of s ≡ record { stages = replicate count New; stack = []; starts = []; waiting = [] }) }
    {
        let stages = Vec::from_elem(alloc, Stage::New, count)?;
        Ok(Search {
            stages,
            stack: Vec::new(alloc),
            starts: Vec::new(alloc),
            waiting: Vec::new(alloc),
        })
    }

    // Opens one, in a group of its own.
    fn enter(&mut self, number: usize, called: &[usize]) -> Result<(), AllocError>
        ensures { OnOk result (state_of self.new ≡ opened (state_of self.old) number called.now) }
    {
        let from = self.stack.len();
        for to in called {
            self.waiting.push(Waiting { from, to: *to })?;
        }
        self.starts.push(from)?;
        self.stack.push(number)?;
        if number < self.stages.len() {
            self.stages[number] = Stage::Open(from);
        }
        Ok(())
    }

    // Opens one, if it is new.
    fn begin(&mut self, number: usize, called: &[usize]) -> Result<(), AllocError>
        ensures { OnOk result (state_of self.new ≡ begun (state_of self.old) number called.now) }
    {
        if number < self.stages.len() && self.stages[number].is_new() {
            self.enter(number, called)?;
        }
        Ok(())
    }

    // Joins the groups from that of a place on.
    fn join(&mut self, place: usize)
        ensures { state_of self.new ≡ joined (state_of self.old) place }
    {
        while !self.starts.is_empty() && place < self.starts[self.starts.len() - 1] {
            self.starts.pop();
        }
    }

    // Closes the last group, which starts at a place.
    fn close(&mut self, start: usize, itself: bool)
        ensures { state_of self.new ≡ closed (state_of self.old) start itself }
    {
        for place in start..self.stack.len() {
            let number = self.stack[place];
            if number < self.stages.len() {
                self.stages[number] = Stage::Closed(itself);
            }
        }
        self.stack.truncate(start);
        self.starts.pop();
    }

    // Follows a call of one: what is new is opened, and what is open is joined to the last group.
    fn follow(&mut self, called: &[Vec<usize>], number: usize) -> Result<(), AllocError>
        requires { length self.old.stages.items ≡ length called.now }
        ensures { OnOk result (state_of self.new ≡ followed (map (λ row. row.items) called.now) (state_of self.old) number) }
    {
        if number >= self.stages.len() {
            return Ok(());
        }
        match self.stages[number] {
            Stage::New => self.enter(number, &called[number]),
            Stage::Open(place) => {
                self.join(place);
                Ok(())
            }
            Stage::Closed(_) => Ok(()),
        }
    }

    // Goes on with the last group, which starts at a place: follows its newest call, or closes it.
    fn advance(&mut self, called: &[Vec<usize>], start: usize) -> Result<(), AllocError>
        requires sized { length self.old.stages.items ≡ length called.now }
        requires start_in { start < length self.old.stack.items }
        requires number_in { get_or self.old.stack.items start 0 < length called.now }
        ensures { OnOk result (state_of self.new ≡ advanced (map (λ row. row.items) called.now) (state_of self.old) start (reverse self.old.waiting.items)) }
    {
        match self.next(start) {
            Some(call) => self.follow(called, call.to),
            None => {
                let itself = self.is_cycle(called, start);
                self.close(start, itself);
                Ok(())
            }
        }
    }

    // Takes the newest call, if it is one of the group that starts at a place.
    fn next(&mut self, start: usize) -> Option<Waiting>
        ensures some { IfSome result (λ call. (reverse self.old.waiting.items ≡ call ∷ reverse self.new.waiting.items) × (start ≤ call.from)) }
        ensures none { IfNone result ((self.new ≡ self.old) × NoneOf start (reverse self.old.waiting.items)) }
        ensures others { (self.new.stages ≡ self.old.stages) × ((self.new.stack ≡ self.old.stack) × (self.new.starts ≡ self.old.starts)) }
    {
        let count = self.waiting.len();
        if count == 0 || self.waiting[count - 1].from < start {
            return None;
        }
        self.waiting.pop()
    }

    // Whether those of the last group, which starts at a place, come to call themselves.
    fn is_cycle(&self, called: &[Vec<usize>], start: usize) -> bool
        requires start_in { start < length self.now.stack.items }
        requires number_in { get_or self.now.stack.items start 0 < length called.now }
        ensures { result ≡ is_cycle (map (λ row. row.items) called.now) (state_of self.now) start }
    {
        let number = self.stack[start];
        self.stack.len() - start > 1 || called[number].contains(&number)
    }

    // Whether each comes to call itself.
    fn answers(&self, alloc: Global) -> Result<Vec<bool>, AllocError>
        ensures { IfOk result (λ answers. answers.items ≡ map is_closed_true self.now.stages.items) }
    {
        let mut answers = Vec::with_capacity(alloc, self.stages.len())?;
        for stage in &self.stages {
            answers.push(stage.is_closed_true())?;
        }
        Ok(answers)
    }
}

impl Stage {
    fn is_new(self) -> bool
        ensures { result ≡ is_new self }
    {
        match self {
            Stage::New => true,
            Stage::Open(_) | Stage::Closed(_) => false,
        }
    }

    // Whether it is known to come to call itself.
    fn is_closed_true(self) -> bool
        ensures { result ≡ is_closed_true self }
    {
        match self {
            Stage::New | Stage::Open(_) => false,
            Stage::Closed(itself) => itself,
        }
    }
}

/// Which ones come to call themselves, where each has the numbers of those that it calls.
pub fn calling_themselves(alloc: Global, called: &[Vec<usize>]) -> Result<Vec<bool>, AllocError>
    ensures len { IfOk result (λ answers. length answers.items ≡ length called.now) }
    ensures each { IfOk result (λ answers. (i : ℕ) → i < length called.now → get_or answers.items i false ≡ calls_itself (map (λ row. row.items) called.now) i) }
{
    let mut search = Search::none(alloc, called.len())?;
    for number in 0..called.len() {
        search.begin(number, &called[number])?;
        while !search.starts.is_empty() {
            let start = search.starts[search.starts.len() - 1];
            search.advance(called, start)?;
        }
    }
    search.answers(alloc)
}
