// The followers of every statement, in one pass in text order.
ghost use Rattle.std.specs.Prelude.{◌≡◌, ◌+◌, ◌*◌, ◌<◌, ◌≤◌, get_or};
ghost use Rattle.base_codes.specs.Statement.{ROW};
ghost use Rattle.base_ir.specs.Arrays.{row_in};
ghost use Rattle.image_flow.specs.Followers.{link, Announced, branched, if_links, opened, step_at, followed, Followed};

use base_codes::{limit, statement};

// Two numbers of each statement. Of a statement that the pass has come to they are its next and other; of the first of a block that it has not come to, the
// end of the block and the line that follows the block.
#[derive(Drop)]
pub struct Links {
    pub next: [u16; limit::STATEMENTS],
    pub other: [u16; limit::STATEMENTS],
}

// A number of the row of statement j.
fn field(rows: &[u16; statement::ROWS], j: usize, k: usize) -> u16
    requires { (j < 512) × (k < ROW) }
    ensures { result ≡ get_or rows.now (ROW * j + k) 0 }
{
    rows[statement::ROW * j + k]
}

// The kind of statement j.
pub(crate) fn kind(rows: &[u16; statement::ROWS], j: usize) -> u16
    requires { j < 512 }
    ensures { result ≡ get_or rows.now (ROW * j) 0 }
{
    rows[statement::ROW * j]
}

impl Links {
    // Stores both numbers of statement j, unless that is past the end.
    fn link_at(&mut self, j: usize, a: u16, b: u16)
        ensures { self.new ≡ link self.old j a b }
    {
        if j < limit::STATEMENTS {
            self.next[j] = a;
            self.other[j] = b;
        }
    }

    // The statements of the block behind statement j, if there are any, are followed by what follows the block. The line that follows statement j.
    #[tactic(auto, unfolding(crate::specs::Followers::rested))]
    fn announce_rest(&mut self, rows: &[u16; statement::ROWS], j: usize) -> u16
        requires { j < 512 }
        ensures { Announced (row_in rows.now j) j self.old self.new result }
    {
        let end = field(rows, j, statement::END);
        let block = self.next[j];
        let after = self.other[j];
        if end == block {
            return after;
        }
        self.link_at(usize::from(end), block, after);
        end
    }

    // Stores the followers of a branch at statement j: its block, whose end and follower are announced, and the other line.
    fn link_branch(&mut self, j: u16, end: u16, after: u16, line: u16)
        requires { j < 512 }
        ensures { self.new ≡ branched j end after line self.old }
    {
        self.link_at(usize::from(j) + 1, end, after);
        self.link_at(usize::from(j), j + 1, line);
    }

    // Stores the followers of an if, and announces the blocks in it.
    fn link_if(&mut self, j: u16, f: u16, second: u16, end: u16)
        requires { j < 512 }
        ensures { self.new ≡ if_links second end j f self.old }
    {
        if second == end {
            self.link_branch(j, end, f, f);
            return;
        }
        self.link_branch(j, second, f, second);
        self.link_at(usize::from(second), end, f);
    }

    // Stores the followers of statement j, which the line f follows, and announces the blocks in it: the condition of a loop follows its body.
    #[tactic(auto, unfolding(crate::specs::Followers::opened))]
    fn link_statement(&mut self, rows: &[u16; statement::ROWS], j: usize, f: u16)
        requires { j < 512 }
        ensures { self.new ≡ opened (row_in rows.now j) j f self.old }
    {
        let end = field(rows, j, statement::END);
        match kind(rows, j) {
            statement::IF => self.link_if(j as u16, f, field(rows, j, statement::OTHER), end),
            statement::WHILE => self.link_branch(j as u16, end, j as u16, f),
            _ => self.link_at(j, f, 0),
        }
    }

    // One statement.
    #[tactic(auto, unfolding(crate::specs::Followers::step_at))]
    fn step(&mut self, rows: &[u16; statement::ROWS], j: usize)
        requires { j < 512 }
        ensures { self.new ≡ step_at rows.now j self.old }
    {
        let f = self.announce_rest(rows, j);
        self.link_statement(rows, j, f);
    }

    // The statements from the first on, n of them.
    #[tactic(auto, using(crate::proofs::FollowersLaws::followed_next), unfolding(crate::specs::Followers::followed))]
    fn pass(&mut self, rows: &[u16; statement::ROWS], n: usize)
        requires { n ≤ 512 }
        ensures { self.new ≡ followed rows.now 0 n self.old }
    {
        for j in 0..n {
            self.step(rows, j);
        }
    }

    // Next and other of each of n statements, which follow one another from the first again.
    pub(crate) fn follow(&mut self, rows: &[u16; statement::ROWS], n: usize)
        requires { n ≤ 512 }
        ensures { Followed rows.now n self.old self.new }
    {
        self.link_at(0, n as u16, 0);
        self.pass(rows, n);
    }
}
