/// One atomic access to one word of the heap's row, named by its index in the row.
#[derive(Clone, Copy, Debug, PartialEq, Eq)]
pub enum Event {
    /// Reads the word.
    Load(u32),
    /// Writes the word, and reads nothing.
    Write(u32, u64),
    /// Writes the word, and reads what it was.
    Swap(u32, u64),
    /// Adds to the word.
    Add(u32, u64),
    /// Takes from the word.
    Sub(u32, u64),
    /// Raises the word to a number, where it is below it.
    Max(u32, u64),
    /// Writes the new word where the word is the current one, and else nothing.
    Trade { word: u32, current: u64, new: u64 },
}

impl Event {
    ghost use Rattle.std.specs.Prelude.{◌≡◌, ◌↔◌, IsTrue};
    ghost use Rattle.hk_core.specs.Event.{word_of, word_after, learnt_from, AmountFits};

    /// The index in the row of the word that the event is about.
    pub fn word(&self) -> u32
        ensures { result ≡ word_of self.now }
    {
        match *self {
            Event::Load(word)
            | Event::Write(word, _)
            | Event::Swap(word, _)
            | Event::Add(word, _)
            | Event::Sub(word, _)
            | Event::Max(word, _)
            | Event::Trade { word, .. } => word,
        }
    }

    /// Whether the amount of the event, taken from or added to what the word was, gives a word.
    pub fn amount_fits(&self, old: u64) -> bool
        ensures { IsTrue result ↔ AmountFits self.now old }
    {
        match *self {
            Event::Add(_, amount) => old <= u64::MAX - amount,
            Event::Sub(_, amount) => amount <= old,
            Event::Load(_)
            | Event::Write(..)
            | Event::Swap(..)
            | Event::Max(..)
            | Event::Trade { .. } => true,
        }
    }

    /// What the word is after the event, from what it was.
    pub fn after(&self, old: u64) -> u64
        requires { AmountFits self.now old }
        ensures { result ≡ word_after self.now old }
    {
        match *self {
            Event::Load(_) => old,
            Event::Write(_, value) | Event::Swap(_, value) => value,
            Event::Add(_, amount) => old + amount,
            Event::Sub(_, amount) => old - amount,
            Event::Max(_, value) => old.max(value),
            Event::Trade { current, new, .. } => { if old == current { new } else { old } }
        }
    }

    /// What whoever does the event learns from it: what the word was, but 0 from a write, which reads nothing.
    pub fn learnt(&self, old: u64) -> u64
        ensures { result ≡ learnt_from self.now old }
    {
        match self {
            Event::Write(..) => 0,
            _ => old,
        }
    }
}
