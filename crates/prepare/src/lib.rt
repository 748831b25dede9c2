// Preparing a changing command: the script of the words that it would change. Nothing is written in the pool.
//
// pool: the borrowed words; table: the rows of the touched nodes and their numbers (crates script_rows, script_table); out: the
// borrowed words for the script; top: the tier of the head.
#![tactic(auto)]

ghost use Rattle.std.specs.Prelude.{ℕ, ◌+◌, ◌≤◌, ◌<◌, ◌≡◌, List, length, get_or, set, true, false};
ghost use Rattle.std.proofs.Math.Option.{Option, none, some};
ghost use Rattle.answers.specs.Answers.{report_of};
ghost use Rattle.blocks.specs.Blocks.{set_bit};
ghost use Rattle.blocks.specs.Lists.{any};
ghost use Rattle.model.specs.Model.{Valid, max_order, mark_count, matched_mark, aligned, storable, covering, over, marks_of};
ghost use Rattle.model.specs.ByBlock.{inside, store_new};
ghost use Rattle.tree.specs.Tree.{height, top_tier, slots};
ghost use Rattle.layout.specs.Words.{last_place, mark_place, pool_words};
ghost use Rattle.layout.specs.Places.{new_places, render};
ghost use Rattle.layout.specs.WellFormed.{WellFormed};
ghost use Rattle.freenodes.specs.FreeNodes.{FreeMap};
ghost use Rattle.plan.specs.Plan.{Storable};
ghost use Rattle.write.specs.Writes.{width, offset};
ghost use Rattle.execute.specs.Promised.{remarking, putting};
ghost use Rattle.execute.specs.Part.{changing};
ghost use Rattle.script.specs.Script.{script};
ghost use Rattle.script_rows.specs.Becomes.{Becomes};
ghost use Rattle.script_table.specs.Table.{row_count, Tables};
ghost use Rattle.script_wide.specs.Wide.{Wide};
ghost use Rattle.script_new.specs.New.{NewPlanned};
ghost use Rattle.preparing.specs.Prepare;
ghost use Rattle.preparing.specs.Prepare.{yielding, preparing};
ghost use Rattle.prepare.specs.Entries.{EntryThere, Stays, Edited, Tabled, Widely, Alone, After, AfterThere};
ghost use Rattle.prepare.specs.Put.{Puttable, PathPlanned, AnyBit, RunMarks};

use answers::{Answer, Refusal};
use batch::Command;
use commands::{is_aligned, is_storable};
use freemap::MAP_WORDS;
use layout::{COUNT_WORD, HEAD_WORD, MARKS_WORD, SLOT_BITS, SPARE_WORD, mark_word, next_marked};
use lookup::{Located, locate};
use model::{Entry, RESERVED, is_reserved};
use plan::{Heads, Target, height_of, plan, starts_at_0, top_of};
use script_erase::{bare_rows, erase_rows};
use script_new::new_rows;
use script_rows::{Range, TIERS};
use script_same::same_rows;
use script_table::{ROWS, Table, table_length, table_write};
use script_wide::{mark_going, wide_length, wide_write};
use words::{fill, with_bit};
use write::{offset_of, width_of};

// THE SCRIPT OF A TABLE, if there is room for it.
fn yield_table(pool: &[u64], rows: &[u64], nums: &[u64], out: &mut [u64]) -> Result<u64, Refusal>
    requires well_formed { WellFormed pool.now }
    requires row_count_in_bounds { (pool_words row_count ≤ length rows.now) × (row_count ≤ length nums.now) }
    requires tabled { Tabled pool.now rows.now nums.now }
    ensures fact { ((s : WellFormed pool.now) (ws' : List ℕ) →
        Tables pool.now rows.now nums.now ws' s.n →
        report_of result ≡ (yielding (script pool.now ws') out.old).result) }
    ensures fact_2 { ((s : WellFormed pool.now) (ws' : List ℕ) →
        Tables pool.now rows.now nums.now ws' s.n →
        out.new ≡ (yielding (script pool.now ws') out.old).slice) }
{
    let n = pool[COUNT_WORD];
    let number = table_length(pool, rows, nums, n);
    let room = out.len() as u64;
    if room < number {
        return Err(Refusal {
            answer: Answer::ReplySpace,
            number,
        });
    }
    table_write(pool, rows, nums, n, out);
    Ok(number)
}

// A TABLE THAT MAY FREE NODES: those inside a range.

// The script, if there is room for it.
fn yield_freeing(
    pool: &[u64],
    rows: &[u64],
    nums: &[u64],
    base: u64,
    order: u64,
    out: &mut [u64],
) -> Result<u64, Refusal>
    requires well_formed { WellFormed pool.now }
    requires row_count_in_bounds { (pool_words row_count ≤ length rows.now) × (row_count ≤ length nums.now) × (order ≤ max_order) }
    requires widely { Widely pool.now rows.now nums.now base order }
    ensures fact { ((s : WellFormed pool.now) (ws' : List ℕ) →
        Wide s rows.now nums.now ws' base order →
        report_of result ≡ (yielding (script pool.now ws') out.old).result) }
    ensures fact_2 { ((s : WellFormed pool.now) (ws' : List ℕ) →
        Wide s rows.now nums.now ws' base order →
        out.new ≡ (yielding (script pool.now ws') out.old).slice) }
{
    let n = pool[COUNT_WORD];
    let mut map = [0u64; MAP_WORDS];
    mark_going(pool, n, base, order, &mut map);
    let number = wide_length(pool, rows, nums, &map, n);
    let most = out.len() as u64;
    if most < number {
        return Err(Refusal {
            answer: Answer::ReplySpace,
            number,
        });
    }
    wide_write(pool, rows, nums, &map, n, out);
    Ok(number)
}

// A range within one slot of a lowest node holds no node: the nodes are not gone through.
pub fn yield_wide(
    pool: &[u64],
    rows: &[u64],
    nums: &[u64],
    base: u64,
    order: u64,
    out: &mut [u64],
) -> Result<u64, Refusal>
    requires well_formed { WellFormed pool.now }
    requires row_count_in_bounds { (pool_words row_count ≤ length rows.now) × (row_count ≤ length nums.now) × (order ≤ max_order) }
    requires widely { Widely pool.now rows.now nums.now base order }
    ensures fact { ((s : WellFormed pool.now) (ws' : List ℕ) →
        Wide s rows.now nums.now ws' base order →
        report_of result ≡ (yielding (script pool.now ws') out.old).result) }
    ensures fact_2 { ((s : WellFormed pool.now) (ws' : List ℕ) →
        Wide s rows.now nums.now ws' base order →
        out.new ≡ (yielding (script pool.now ws') out.old).slice) }
{
    if order < SLOT_BITS {
        return yield_table(pool, rows, nums, out);
    }
    yield_freeing(pool, rows, nums, base, order, out)
}

// AN ENTRY THAT IS THERE

// It is the head: the anchor alone.
fn head_rows(pool: &[u64], table: &mut Table, at: Range)
    requires well_formed { WellFormed pool.now }
    ensures { Alone pool.now table.new.rows table.new.nums at.word at.marks }
{
    let n = pool[COUNT_WORD];
    table.rows[COUNT_WORD] = n;
    table.rows[HEAD_WORD] = at.word;
    table.rows[MARKS_WORD] = at.marks;
    table.rows[SPARE_WORD] = 0;
    fill(&mut table.nums, 0, n, ROWS);
}

// The rows of the nodes over it, or the anchor alone. path: words for the numbers of these nodes.
fn entry_rows(pool: &[u64], table: &mut Table, path: &mut [u64; TIERS], at: Range, top: u64)
    requires well_formed { WellFormed pool.now }
    requires entry_there { (s : WellFormed pool.now) → EntryThere s at.base at.order top }
    ensures { ((s : WellFormed pool.now) (o : Option Entry) (l' : List Entry) →
        Stays s at.base at.order at.word at.marks o l' →
        Tables pool.now table.new.rows table.new.nums (render l' s.places s.n) s.n) }
{
    if top == 0 {
        head_rows(pool, table, at);
        return;
    }
    same_rows(pool, &mut table.rows, &mut table.nums, path, at, top);
}

// The rows after the entry of that order at base has left.
fn erased_rows(
    pool: &[u64],
    table: &mut Table,
    path: &mut [u64; TIERS],
    base: u64,
    order: u64,
    top: u64,
)
    requires well_formed { WellFormed pool.now }
    requires entry_there { (s : WellFormed pool.now) → EntryThere s base order top }
    ensures { ((s : WellFormed pool.now) (l' : List Entry) → Becomes base order none s.list l' → Valid l' →
        Tables pool.now table.new.rows table.new.nums
        (render l' (new_places s.list l' s.places) s.n) s.n) }
{
    if top == 0 {
        bare_rows(pool, &mut table.rows, &mut table.nums);
        return;
    }
    erase_rows(
        pool,
        &mut table.rows,
        &mut table.nums,
        path,
        base,
        order,
        top,
    );
}

// What an entry has beside its range.
#[derive(Clone, Copy)]
pub struct Content {
    pub word: u64,
    pub marks: u64,
}

// The rows after the entry of that order at base becomes another one, of that content, or is erased.
fn after_rows(
    pool: &[u64],
    table: &mut Table,
    path: &mut [u64; TIERS],
    base: u64,
    order: u64,
    top: u64,
    after: Option<Content>,
)
    requires well_formed { WellFormed pool.now }
    requires entry_there { (s : WellFormed pool.now) → EntryThere s base order top }
    ensures { ((s : WellFormed pool.now) (ws' : List ℕ) → After s base order after ws' →
        Tables pool.now table.new.rows table.new.nums ws' s.n) }
{
    match after {
        None => erased_rows(pool, table, path, base, order, top),
        Some(Content { word, marks }) => {
            let at = Range {
                base,
                order,
                word,
                marks,
            };
            entry_rows(pool, table, path, at, top)
        }
    }
}

// The script of that. All that starts from an entry goes by here, and the tier of the head is read here: with a tier known to be 0
// the rows would be inlined in the callers, and be on the stack twice.
fn entry_script(
    pool: &[u64],
    base: u64,
    order: u64,
    after: Option<Content>,
    out: &mut [u64],
) -> Result<u64, Refusal>
    requires well_formed { WellFormed pool.now }
    requires entry_there { (s : WellFormed pool.now) → EntryThere s base order (height s.list) }
    requires after_there { AfterThere pool.now base order after }
    ensures fact { ((s : WellFormed pool.now) (ws' : List ℕ) →
        After s base order after ws' →
        report_of result ≡ (yielding (script pool.now ws') out.old).result) }
    ensures fact_2 { ((s : WellFormed pool.now) (ws' : List ℕ) →
        After s base order after ws' →
        out.new ≡ (yielding (script pool.now ws') out.old).slice) }
{
    let top = height_of(pool);
    let mut table = Table::new();
    let mut path = [0u64; TIERS];
    after_rows(pool, &mut table, &mut path, base, order, top, after);
    yield_table(pool, &table.rows, &table.nums, out)
}

// The script of another entry in its place.
fn edit_entry(pool: &[u64], at: Range, top: u64, out: &mut [u64]) -> Result<u64, Refusal>
    requires well_formed { WellFormed pool.now }
    requires entry_there { (s : WellFormed pool.now) → EntryThere s at.base at.order top }
    requires edited { Edited pool.now at.base at.order at.word at.marks }
    ensures fact { ((s : WellFormed pool.now) (o : Option Entry) (l' : List Entry) →
        Stays s at.base at.order at.word at.marks o l' →
        report_of result ≡ (yielding (script pool.now (render l' s.places s.n)) out.old).result) }
    ensures fact_2 { ((s : WellFormed pool.now) (o : Option Entry) (l' : List Entry) →
        Stays s at.base at.order at.word at.marks o l' →
        out.new ≡ (yielding (script pool.now (render l' s.places s.n)) out.old).slice) }
{
    let after = Content {
        word: at.word,
        marks: at.marks,
    };
    entry_script(pool, at.base, at.order, Some(after), out)
}

// MARK AND UNMARK

const MARKS: u64 = 3;

// Mark m of the entry e, which covers i, set or cleared; a reservation has none.
fn remark_entry(
    pool: &[u64],
    e: Entry,
    top: u64,
    i: u64,
    m: u64,
    on: bool,
    out: &mut [u64],
) -> Result<u64, Refusal>
    requires well_formed { WellFormed pool.now }
    requires m_lt_mark_count { m < mark_count }
    requires i_value { (s : WellFormed pool.now) → (covering s.list i ≡ some e) × (height s.list ≡ top) }
    ensures fact { ((s : WellFormed pool.now) →
        report_of result ≡ (preparing s out.old (remarking i m on)).result) }
    ensures fact_2 { ((s : WellFormed pool.now) →
        out.new ≡ (preparing s out.old (remarking i m on)).slice) }
{
    if is_reserved(e) {
        return Err(Refusal::from(Answer::Absent));
    }
    let marks = with_bit(e.marks, m, on);
    let at = Range {
        base: e.base,
        order: e.order,
        word: e.word,
        marks,
    };
    edit_entry(pool, at, top, out)
}

// Mark m of the entry that covers i set or cleared.
pub fn prepare_remark(
    pool: &[u64],
    i: u64,
    m: u64,
    on: bool,
    out: &mut [u64],
) -> Result<u64, Refusal>
    requires { WellFormed pool.now }
    ensures fact { ((s : WellFormed pool.now) →
        report_of result ≡ (preparing s out.old (remarking i m on)).result) }
    ensures fact_2 { ((s : WellFormed pool.now) →
        out.new ≡ (preparing s out.old (remarking i m on)).slice) }
{
    if m >= MARKS {
        return Err(Refusal::from(Answer::BadMark));
    }
    let k = locate(pool, i);
    match k {
        Located::Apart | Located::Vacant(..) => Err(Refusal::from(Answer::Absent)),
        Located::AtHead(e) => remark_entry(pool, e, 0, i, m, on, out),
        Located::InNode(e, at, _) => remark_entry(pool, e, at.top, i, m, on, out),
    }
}

// A STORE

const MATCHED: u64 = 2;

// Onto the entry e, of its order or more, which covers i: that takes the word, and mark 2 is clear.
pub fn over_entry(
    pool: &[u64],
    e: Entry,
    top: u64,
    i: u64,
    k: u64,
    w: u64,
    out: &mut [u64],
) -> Result<u64, Refusal>
    requires well_formed { WellFormed pool.now }
    requires k_le_order { (k ≤ e.order) × (k ≤ max_order) × (aligned k i ≡ true) × (storable w ≡ true) }
    requires i_value { (s : WellFormed pool.now) → (covering s.list i ≡ some e) × (height s.list ≡ top) }
    ensures fact { ((s : WellFormed pool.now) →
        report_of result ≡ (preparing s out.old (Command.Store i k w)).result) }
    ensures fact_2 { ((s : WellFormed pool.now) →
        out.new ≡ (preparing s out.old (Command.Store i k w)).slice) }
{
    let marks = with_bit(e.marks, MATCHED, false);
    let at = Range {
        base: e.base,
        order: e.order,
        word: w,
        marks,
    };
    edit_entry(pool, at, top, out)
}

// THE MARKS THAT A NEW ENTRY KEEPS

// 1 if one of the slots of node n from o on, c of them, has mark m, else 0.
fn run_mark(pool: &[u64], n: u64, m: u64, o: u64, c: u64) -> u64
    requires n_in_bounds { last_place n < length pool.now }
    requires m_lt_mark_count { (m < mark_count) × (o + c ≤ slots) × (o < slots) }
    ensures fact { AnyBit (get_or pool.now (mark_place n m) 0) o c result }
    ensures r_bound { result ≤ 1 }
{
    let w = mark_word(pool, n, m);
    u64::from(next_marked(w, o) < o + c)
}

// Marks 0 and 1 of the slots that the target takes in node n.
fn run_marks(pool: &[u64], n: u64, target: Target) -> u64
    requires n_in_bounds { last_place n < length pool.now }
    requires storable { Storable target }
    ensures { RunMarks pool.now n (offset target.index target.order) (width target.order) result }
{
    let o = offset_of(target);
    let c = width_of(target.order);
    run_mark(pool, n, 0, o, c) + 2 * run_mark(pool, n, 1, o, c)
}

// Marks 0 and 1 of what the target replaces: in its node, or the whole old tree, or nothing.
fn kept_marks(pool: &[u64], path: &[u64; TIERS], target: Target, heads: Heads) -> u64
    requires well_formed { WellFormed pool.now }
    requires storable { Storable target }
    requires marks_value { heads.marks ≡ get_or pool.now 2 0 }
    requires path_planned { (s : WellFormed pool.now) → PathPlanned s target heads path.now }
    ensures { ((s : WellFormed pool.now) →
        result ≡ set_bit matched_mark false (marks_of (inside s.list target.index target.order))) }
{
    if heads.old == heads.new {
        let n = path[(target.order / SLOT_BITS + 1) as usize];
        return run_marks(pool, n, target);
    }
    if starts_at_0(target) {
        return with_bit(heads.marks, MATCHED, false);
    }
    0
}

// A NEW ENTRY

// The head before and after.
fn heads_of(pool: &[u64], target: Target) -> Heads
    requires well_formed { WellFormed pool.now }
    requires storable { Storable target }
    ensures fact { (result.word ≡ get_or pool.now 1 0) × (result.marks ≡ get_or pool.now 2 0) }
    ensures fact_2 { ((s : WellFormed pool.now) → any (over target.index target.order) s.list ≡ false →
        (result.old ≡ height s.list) ×
        (result.new ≡ height (store_new s.list target.index target.order target.word))) }
{
    let h = height_of(pool);
    let top = top_of(h, target.index, target.order);
    Heads {
        old: h,
        new: top,
        word: pool[HEAD_WORD],
        marks: pool[MARKS_WORD],
    }
}

// The entry is the head: its word alone changes.
fn head_script(pool: &[u64], word: u64, out: &mut [u64]) -> Result<u64, Refusal>
    requires { WellFormed pool.now }
    ensures fact { ((s : WellFormed pool.now) →
        report_of result ≡ (yielding (script pool.now (set pool.now 1 word)) out.old).result) }
    ensures fact_2 { ((s : WellFormed pool.now) →
        out.new ≡ (yielding (script pool.now (set pool.now 1 word)) out.old).slice) }
{
    let marks = pool[MARKS_WORD];
    let mut table = Table::new();
    let at = Range {
        base: 0,
        order: 0,
        word,
        marks,
    };
    head_rows(pool, &mut table, at);
    yield_table(pool, &table.rows, &table.nums, out)
}

// The entry goes into nodes, whose numbers are planned. reserve: which command the clauses speak of; the code does not look at it. (As a
// `ghost` value it would take the clauses' names from the proofs.)
fn new_script(
    pool: &[u64],
    path: &[u64; TIERS],
    chain: &[u64; TIERS],
    target: Target,
    heads: Heads,
    reserve: bool,
    out: &mut [u64],
) -> Result<u64, Refusal>
    requires well_formed { WellFormed pool.now }
    requires word_value { (heads.word ≡ get_or pool.now 1 0) × (heads.marks ≡ get_or pool.now 2 0) }
    requires storable { Storable target × Puttable target.order target.word reserve }
    requires new_planned { (s : WellFormed pool.now) → NewPlanned s target heads path.now chain.now }
    ensures fact { ((s : WellFormed pool.now) →
        report_of result ≡ (preparing s out.old (putting target.index target.order target.word reserve)).result) }
    ensures fact_2 { ((s : WellFormed pool.now) →
        out.new ≡ (preparing s out.old (putting target.index target.order target.word reserve)).slice) }
{
    let marks = kept_marks(pool, path, target, heads);
    let at = Range {
        base: target.index,
        order: target.order,
        word: target.word,
        marks,
    };
    let mut table = Table::new();
    new_rows(
        pool,
        &mut table.rows,
        &mut table.nums,
        path,
        chain,
        at,
        heads,
    );
    yield_wide(pool, &table.rows, &table.nums, at.base, at.order, out)
}

// A target that no entry of its order or more covers.
fn prepare_new(
    pool: &[u64],
    map: &mut [u64],
    target: Target,
    reserve: bool,
    out: &mut [u64],
) -> Result<u64, Refusal>
    requires well_formed { WellFormed pool.now }
    requires free_map { FreeMap pool.now map.old }
    requires storable { Storable target × Puttable target.order target.word reserve }
    requires list_value { (s : WellFormed pool.now) → any (over target.index target.order) s.list ≡ false }
    ensures fact { ((s : WellFormed pool.now) →
        report_of result ≡ (preparing s out.old (putting target.index target.order target.word reserve)).result) }
    ensures fact_2 { ((s : WellFormed pool.now) →
        out.new ≡ (preparing s out.old (putting target.index target.order target.word reserve)).slice) }
{
    let heads = heads_of(pool, target);
    if heads.new == 0 {
        return head_script(pool, target.word, out);
    }
    let mut path = [0u64; TIERS];
    let mut chain = [0u64; TIERS];
    let enough = plan(pool, map, &mut path, &mut chain, target, heads);
    if !enough {
        return Err(Refusal::from(Answer::TooFewNodes));
    }
    new_script(pool, &path, &chain, target, heads, reserve, out)
}

// STORE AND RESERVE

const MAX_ORDER: u64 = 63;

// A store whose order, index and word are taken, where the entry e covers the index.
fn store_over(
    pool: &[u64],
    map: &mut [u64],
    e: Entry,
    top: u64,
    target: Target,
    out: &mut [u64],
) -> Result<u64, Refusal>
    requires well_formed { WellFormed pool.now }
    requires free_map { FreeMap pool.now map.old }
    requires storable { Storable target × Puttable target.order target.word false }
    requires index_value { (s : WellFormed pool.now) →
        (covering s.list target.index ≡ some e) × (height s.list ≡ top) }
    ensures fact { ((s : WellFormed pool.now) →
        report_of result ≡ (preparing s out.old (Command.Store target.index target.order target.word)).result) }
    ensures fact_2 { ((s : WellFormed pool.now) →
        out.new ≡ (preparing s out.old (Command.Store target.index target.order target.word)).slice) }
{
    if e.order < target.order {
        return prepare_new(pool, map, target, false, out);
    }
    over_entry(pool, e, top, target.index, target.order, target.word, out)
}

// A store whose order, index and word are taken.
fn store_taken(
    pool: &[u64],
    map: &mut [u64],
    target: Target,
    out: &mut [u64],
) -> Result<u64, Refusal>
    requires well_formed { WellFormed pool.now }
    requires free_map { FreeMap pool.now map.old }
    requires storable { Storable target × Puttable target.order target.word false }
    ensures fact { ((s : WellFormed pool.now) →
        report_of result ≡ (preparing s out.old (Command.Store target.index target.order target.word)).result) }
    ensures fact_2 { ((s : WellFormed pool.now) →
        out.new ≡ (preparing s out.old (Command.Store target.index target.order target.word)).slice) }
{
    let k = locate(pool, target.index);
    match k {
        Located::Apart | Located::Vacant(..) => prepare_new(pool, map, target, false, out),
        Located::AtHead(e) => store_over(pool, map, e, 0, target, out),
        Located::InNode(e, at, _) => store_over(pool, map, e, at.top, target, out),
    }
}

// A store of the word w at the index i with the order k.
pub fn prepare_store(
    pool: &[u64],
    map: &mut [u64],
    i: u64,
    k: u64,
    w: u64,
    out: &mut [u64],
) -> Result<u64, Refusal>
    requires well_formed { WellFormed pool.now }
    requires free_map { FreeMap pool.now map.old }
    ensures fact { ((s : WellFormed pool.now) →
        report_of result ≡ (preparing s out.old (Command.Store i k w)).result) }
    ensures fact_2 { ((s : WellFormed pool.now) →
        out.new ≡ (preparing s out.old (Command.Store i k w)).slice) }
{
    if k > MAX_ORDER {
        return Err(Refusal::from(Answer::BadOrder));
    }
    if !is_aligned(i, k) {
        return Err(Refusal::from(Answer::NotAligned));
    }
    if !is_storable(w) {
        return Err(Refusal::from(Answer::BadEntry));
    }
    let target = Target {
        index: i,
        order: k,
        word: w,
    };
    store_taken(pool, map, target, out)
}

// A reservation of the index i, which nothing covers.
fn reserve_free(pool: &[u64], map: &mut [u64], i: u64, out: &mut [u64]) -> Result<u64, Refusal>
    requires well_formed { WellFormed pool.now }
    requires free_map { FreeMap pool.now map.old }
    requires i_value { (s : WellFormed pool.now) → covering s.list i ≡ none }
    ensures fact { ((s : WellFormed pool.now) →
        report_of result ≡ (preparing s out.old (Command.Reserve i)).result) }
    ensures fact_2 { ((s : WellFormed pool.now) →
        out.new ≡ (preparing s out.old (Command.Reserve i)).slice) }
{
    let target = Target {
        index: i,
        order: 0,
        word: RESERVED,
    };
    prepare_new(pool, map, target, true, out)
}

// A reservation of the index i.
pub fn prepare_reserve(
    pool: &[u64],
    map: &mut [u64],
    i: u64,
    out: &mut [u64],
) -> Result<u64, Refusal>
    requires well_formed { WellFormed pool.now }
    requires free_map { FreeMap pool.now map.old }
    ensures fact { ((s : WellFormed pool.now) →
        report_of result ≡ (preparing s out.old (Command.Reserve i)).result) }
    ensures fact_2 { ((s : WellFormed pool.now) →
        out.new ≡ (preparing s out.old (Command.Reserve i)).slice) }
{
    let k = locate(pool, i);
    match k {
        Located::Apart | Located::Vacant(..) => reserve_free(pool, map, i, out),
        Located::AtHead(_) | Located::InNode(..) => Err(Refusal::from(Answer::Covered)),
    }
}

// AN ERASE

// The entry e, which covers i.
fn erase_entry(pool: &[u64], e: Entry, top: u64, i: u64, out: &mut [u64]) -> Result<u64, Refusal>
    requires well_formed { WellFormed pool.now }
    requires i_value { (s : WellFormed pool.now) → (covering s.list i ≡ some e) × (height s.list ≡ top) }
    ensures fact { ((s : WellFormed pool.now) →
        report_of result ≡ (preparing s out.old (Command.Erase i)).result) }
    ensures fact_2 { ((s : WellFormed pool.now) →
        out.new ≡ (preparing s out.old (Command.Erase i)).slice) }
{
    entry_script(pool, e.base, e.order, None, out)
}

// The entry that covers i.
pub fn prepare_erase(pool: &[u64], i: u64, out: &mut [u64]) -> Result<u64, Refusal>
    requires { WellFormed pool.now }
    ensures fact { ((s : WellFormed pool.now) →
        report_of result ≡ (preparing s out.old (Command.Erase i)).result) }
    ensures fact_2 { ((s : WellFormed pool.now) →
        out.new ≡ (preparing s out.old (Command.Erase i)).slice) }
{
    let k = locate(pool, i);
    match k {
        Located::Apart | Located::Vacant(..) => Err(Refusal::from(Answer::Absent)),
        Located::AtHead(e) => erase_entry(pool, e, 0, i, out),
        Located::InNode(e, at, _) => erase_entry(pool, e, at.top, i, out),
    }
}

// ANY CHANGING COMMAND

pub fn prepare_command(
    pool: &[u64],
    map: &mut [u64],
    c: Command,
    out: &mut [u64],
) -> Result<u64, Refusal>
    requires well_formed { WellFormed pool.now }
    requires free_map { FreeMap pool.now map.old }
    requires c_value { changing c ≡ true }
    ensures fact { ((s : WellFormed pool.now) → report_of result ≡ (preparing s out.old c).result) }
    ensures fact_2 { ((s : WellFormed pool.now) → out.new ≡ (preparing s out.old c).slice) }
{
    match c {
        Command::Store { index, order, word } => {
            prepare_store(pool, map, index, order, word, out)
        }
        Command::Erase { index } => prepare_erase(pool, index, out),
        Command::Mark { index, mark } => prepare_remark(pool, index, mark, true, out),
        Command::Unmark { index, mark } => prepare_remark(pool, index, mark, false, out),
        Command::Reserve { index } => prepare_reserve(pool, map, index, out),
        // These change nothing: prepare_command is not called with them.
        Command::Load { .. } | Command::Find { .. } => Err(Refusal::from(Answer::Absent)),
    }
}
