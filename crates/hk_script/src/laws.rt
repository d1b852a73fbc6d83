//! What holds of all texts and scripts. These functions take no time; their clauses are the laws.

ghost use Rattle.std.specs.Prelude.{◌≡◌, ◌↔◌, ℕ, ◌+◌, ◌<◌, ◌≤◌, List, length, replicate, Ok, Some, None, IfSome};
ghost use Rattle.hk_words.specs.declared.call.Reply.{Reply};
ghost use Rattle.hk_script.specs.declared.limits.Limits.{Limits};
ghost use Rattle.hk_script.specs.declared.statement.Statement.{Statement};
ghost use Rattle.hk_script.specs.declared.walk.Walk.{Walk};
ghost use Rattle.hk_script.specs.Limits.{AreLimits, AreWithin};
ghost use Rattle.hk_script.specs.Blocks.{IsScript};
ghost use Rattle.hk_script.specs.Texts.{Spells, script_of};
ghost use Rattle.hk_script.specs.Printing.{text_of};
ghost use Rattle.hk_script.specs.Cost.{told, greatest_ticks, greatest_words, largest_of};
ghost use Rattle.hk_script.specs.Walks.{started, need_of, walk_after, Fits};
ghost use Rattle.hk_script.specs.Runs.{AreReplies, taken, taken_by, need_ticks, need_words};
ghost use Rattle.hk_script.specs.Left.{ticks_left, words_left};
ghost use Rattle.hk_script.specs.Needs.{NeedFits};
ghost use Rattle.hk_script.specs.Trees.{Tree, IsTreeOf, tree_ticks, tree_words, IsGreatestMade};
ghost use Rattle.hk_script.specs.Courses.{does, Follows};

/// A text spells one script at most.
pub fn one_script()
    ensures { (limits : Limits) (text : List ℕ) (first second : List Statement) → AreLimits limits → Spells limits text first → Spells limits text second → first ≡ second }
{}

/// What is printed is parsed as the script that was printed, by all limits that the script keeps.
pub fn printed_again()
    ensures { (limits : Limits) (script : List Statement) → AreLimits limits → IsScript limits script
        → Spells limits (text_of script) script × (script_of limits (text_of script) ≡ Ok script) }
{}

/// A script keeps all wider limits too, and a text that spells it does so by these.
pub fn wider_limits()
    ensures scripts { (narrow wide : Limits) (script : List Statement) → AreWithin wide narrow → IsScript narrow script → IsScript wide script }
    ensures texts { (narrow wide : Limits) (text : List ℕ) (script : List Statement) → AreWithin wide narrow → Spells narrow text script → Spells wide text script }
{}

/// A script is one tree of blocks laid out, and no other.
pub fn one_tree()
    ensures some { (limits : Limits) (script : List Statement) → IsScript limits script → (tree : Tree) × IsTreeOf script tree }
    ensures one { (script : List Statement) (first second : Tree) → IsTreeOf script first → IsTreeOf script second → first ≡ second }
{}

/// A script costs what its tree costs, neither less nor more: a sequence the sum of its parts, an `if` one tick and the
/// dearer of its parts, a `repeat` its block so many times and one test more. Costs are told exactly up to 2^24.
pub fn costs_of_blocks()
    ensures ticks { (script : List Statement) (tree : Tree) → IsTreeOf script tree → greatest_ticks script ≡ tree_ticks tree }
    ensures words { (script : List Statement) (tree : Tree) → IsTreeOf script tree → greatest_words script ≡ tree_words tree }
    ensures largest { (script : List Statement) → IsGreatestMade script (largest_of script) }
    ensures told { (cost amount : ℕ) → (told cost ≡ Some amount) ↔ ((cost ≡ amount) × (cost ≤ 16777216)) }
    ensures untold { (cost : ℕ) → (told cost ≡ None) ↔ (16777216 < cost) }
{}

/// A walk of a script does what its tree says, whatever the replies: it wants what each statement wants, in order, does
/// the part of an `if` that the test picks, and the block of a `repeat` so many times, with a test before each turn and a
/// last one; and then it is at its end.
pub fn walks_of_blocks()
    ensures { (limits : Limits) (script : List Statement) (tree : Tree) (job : ℕ) → IsScript limits script → IsTreeOf script tree
        → Follows script (started job) (does job tree (replicate 8 0)) }
{}

/// What a walk wants keeps the limits of its script.
pub fn needs_fit()
    ensures { (limits : Limits) (script : List Statement) (walk : Walk) → IsScript limits script → IfSome (need_of script walk) (NeedFits limits) }
{}

/// A walk of one job takes no more ticks and words than its script costs, over any replies that fit.
pub fn walks_within_cost()
    ensures { (limits : Limits) (script : List Statement) (job : ℕ) (replies : List Reply) → IsScript limits script → AreReplies script (started job) replies
        → (taken need_ticks script (started job) replies ≤ greatest_ticks script) × (taken need_words script (started job) replies ≤ greatest_words script) }
{}

/// A walk that fits its script goes on fitting, whatever the reply, and has counters for sixteen levels of blocks.
pub fn walks_fit()
    ensures started { (limits : Limits) (script : List Statement) (job : ℕ) → IsScript limits script → Fits script (started job) × (length (started job).turns ≡ 16) }
    ensures after { (limits : Limits) (script : List Statement) (walk : Walk) (reply : Reply) → IsScript limits script → Fits script walk → length walk.turns ≡ 16
        → Fits script (walk_after script walk reply) × (length (walk_after script walk reply).turns ≡ 16) }
{}

/// What a walk may still take falls with each need by what the need takes, whatever the reply. At the start it is at most
/// what the script costs.
pub fn walks_fall()
    ensures ticks { (limits : Limits) (script : List Statement) (walk : Walk) (reply : Reply) → IsScript limits script → Fits script walk → length walk.turns ≡ 16
        → taken_by need_ticks (need_of script walk) + ticks_left script (walk_after script walk reply) ≤ ticks_left script walk }
    ensures words { (limits : Limits) (script : List Statement) (walk : Walk) (reply : Reply) → IsScript limits script → Fits script walk → length walk.turns ≡ 16
        → taken_by need_words (need_of script walk) + words_left script (walk_after script walk reply) ≤ words_left script walk }
    ensures all_ticks { (limits : Limits) (script : List Statement) (job : ℕ) → IsScript limits script → ticks_left script (started job) ≤ greatest_ticks script }
    ensures all_words { (limits : Limits) (script : List Statement) (job : ℕ) → IsScript limits script → words_left script (started job) ≤ greatest_words script }
{}
