// What the program writes of a call: a line for the reply and, for an accepted text, a line for each record of its tree.
#![tactic(auto)]

ghost use Rattle.std.specs.Prelude.{◌≡◌, [], ◌∷◌, ◌++◌, ◌+◌, ◌*◌, ◌≤◌, length, take};
ghost use Rattle.io.specs.Counts.{IsPrefixLen};
ghost use Rattle.kinds.specs.Kinds.{bytes};
ghost use Rattle.report.specs.Page.{Fits, Writes};
ghost use Rattle.report.specs.Report.{number, line, lines, refusal, acceptance, report};
ghost use Rattle.report.specs.Report.{number_size, first_line_size};

use itoa::Buffer;
use replies::Reply;
use tables::NODE_WIDTH;

// The most bytes that a number takes with the byte after it.
pub const NUMBER_SIZE: usize = 11;

// The bytes of a refusal's word, with the blank after it.
const REFUSED_SIZE: usize = 8;

// The most bytes of the first line: those of a refusal, which has every number of its reply.
pub const FIRST_LINE_SIZE: usize = REFUSED_SIZE + Reply::WIDTH * NUMBER_SIZE;

// A lent slice, and how many bytes at its front are written.
#[derive(Drop)]
struct Page<'a> {
    out: &'a mut [u8],
    size: usize,
}

impl<'a> Page<'a> {
    fn put(&mut self, text: &[u8])
        requires { Fits self.old text.now }
        ensures same_reference { self.new.out.ghost_name ≡ self.old.out.ghost_name }
        ensures written { Writes self.old self.new text.now }
    {
        let end = self.size + text.len();
        self.out[self.size..end].copy_from_slice(text);
        self.size = end;
    }

    // A number, and the byte that stands after it.
    #[tactic(auto, using(crate::proofs::Decimal::spelled, crate::proofs::Written::parts))]
    fn put_number(&mut self, n: u32, after: u8)
        requires { Fits self.old (number n ++ after ∷ []) }
        ensures same_reference { self.new.out.ghost_name ≡ self.old.out.ghost_name }
        ensures written { Writes self.old self.new (number n ++ after ∷ []) }
    {
        self.put(Buffer::new().format(n).as_bytes());
        self.put(&[after]);
    }

    // Numbers on a line.
    fn put_line(&mut self, numbers: &[u32])
        requires { Fits self.old (line numbers.now) }
        ensures same_reference { self.new.out.ghost_name ≡ self.old.out.ghost_name }
        ensures written { Writes self.old self.new (line numbers.now) }
    {
        if let Some((last, front)) = numbers.split_last() {
            for n in front {
                self.put_number(*n, b' ');
            }
            self.put_number(*last, b'\n');
        }
    }

    // So many records of the tree, as far as the table has them.
    fn put_records(&mut self, tree: &[u32], records: u32)
        requires { Fits self.old (lines records tree.now) }
        ensures same_reference { self.new.out.ghost_name ≡ self.old.out.ghost_name }
        ensures written { Writes self.old self.new (lines records tree.now) }
    {
        for record in tree.chunks_exact(NODE_WIDTH).take(records as usize) {
            self.put_line(record);
        }
    }

    #[tactic(auto, using(crate::proofs::Written::parts), unfolding(crate::specs::Report::refusal))]
    fn put_refusal(&mut self, reply: Reply)
        requires { Fits self.old (refusal reply) }
        ensures same_reference { self.new.out.ghost_name ≡ self.old.out.ghost_name }
        ensures written { Writes self.old self.new (refusal reply) }
    {
        self.put(b"refused ");
        self.put_line(&[reply.number, reply.place, reply.tokens, reply.records]);
    }

    #[tactic(auto, using(crate::proofs::Written::parts), unfolding(crate::specs::Report::acceptance))]
    fn put_acceptance(&mut self, reply: Reply, tree: &[u32])
        requires { Fits self.old (acceptance reply tree.now) }
        ensures same_reference { self.new.out.ghost_name ≡ self.old.out.ghost_name }
        ensures written { Writes self.old self.new (acceptance reply tree.now) }
    {
        self.put(b"accepted ");
        self.put_line(&[reply.tokens, reply.records]);
        self.put_records(tree, reply.records);
    }

    #[tactic(auto, unfolding(crate::specs::Report::report))]
    fn put_report(&mut self, reply: Reply, tree: &[u32])
        requires { Fits self.old (report reply tree.now) }
        ensures same_reference { self.new.out.ghost_name ≡ self.old.out.ghost_name }
        ensures written { Writes self.old self.new (report reply tree.now) }
    {
        if reply.is_accepted() {
            self.put_acceptance(reply, tree);
        } else {
            self.put_refusal(reply);
        }
    }
}

// The whole report, from the start of a slice that has room for any tree of this table.
#[tactic(auto, using(crate::proofs::Lines::report_most))]
pub fn put_report(out: &mut [u8], reply: Reply, tree: &[u32]) -> usize
    requires { first_line_size + number_size * length tree.now ≤ length out.old }
    ensures written { take result out.new ≡ report reply tree.now }
    ensures counts { IsPrefixLen result out.new }
{
    let mut page = Page { out, size: 0 };
    page.put_report(reply, tree);
    page.size
}
