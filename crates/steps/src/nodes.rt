// Nodes: closed over their children, or without any.
ghost use Rattle.std.specs.Prelude.{◌≡◌, ℕ, ◌+◌, ◌≤◌, ◌<◌, true, IfOk};
ghost use Rattle.trees.specs.KindNumber.{kind_number};
ghost use Rattle.trees.specs.Tree.{head};
ghost use Rattle.tokens.specs.Token.{is_symbol, is_const};
ghost use Rattle.tokens.specs.Input.{peek, pos_at};
ghost use Rattle.steps.specs.Outcome.{parent, parse_ident, parse_const};
ghost use Rattle.steps.specs.Met.{Near};
ghost use Rattle.steps.specs.Read.{read_by, Read, ClosedBy, LeafedBy, Begins, Went};

use crate::{Parser, State, Stop};
use reader::after;
use tally::emit_at;
use tokens::Token;
use trees::{Head, Kind};

// A head without words, of any kind.
fn plain(kind: u8, flags: u8, pos: u32) -> Head
    ensures { result ≡ head kind flags pos 0 0 }
{
    Head {
        kind,
        flags,
        pos,
        word1: 0,
        word2: 0,
    }
}

impl Parser<'_> {
    // The node h, begun at `node`, is closed over the children read since. Its record goes to the slot that was left free for it; the number
    // after that one is not taken, since the children were counted already.
    pub fn close(&mut self, node: State, h: Head)
        requires near { Near node }
        requires few { self.old.state.items < 65536 }
        ensures { ClosedBy h node self.old self.new }
    {
        emit_at(self.out, node.count, h.over(self.state.items as u16));
        self.state.items = node.items + 1;
    }

    // The same for a node without words, at the position of its first token.
    // Kept: of any kind, as are close_of, leaf_of and the two nodes over a name: their contracts have landed and may not ask more than a number.
    pub fn close_at(&mut self, node: State, kind: u8, flags: u8)
        requires near { Near node }
        requires few { self.old.state.items < 65536 }
        ensures { ClosedBy (head kind flags (pos_at (read_by self.old) node.next) 0 0) node self.old self.new }
    {
        let pos = self.pos_at(node.next);
        self.close(node, plain(kind, flags, pos));
    }

    // The same by its first token t.
    // Kept: beside close_at: the caller has read the token, and to read it once more takes time; close_at reads its position alone.
    pub fn close_of(&mut self, node: State, kind: u8, flags: u8, t: Token)
        requires near { Near node }
        requires few { self.old.state.items < 65536 }
        ensures { ClosedBy (head kind flags t.pos 0 0) node self.old self.new }
    {
        self.close(node, plain(kind, flags, t.pos));
    }

    // The same for a node without words and position.
    pub fn close_bare(&mut self, node: State, kind: Kind)
        requires near { Near node }
        requires few { self.old.state.items < 65536 }
        ensures { ClosedBy (head (kind_number kind) 0 0 0 0) node self.old self.new }
    {
        self.close(node, Head::plain(kind, 0, 0));
    }

    // A node without children, of one token.
    pub fn put_leaf(&mut self, h: Head)
        requires { Near self.old.state }
        ensures { LeafedBy h self.old self.new }
    {
        let count = emit_at(self.out, self.state.count, h.over(0));
        self.state = State {
            next: after(self.source.tokens, self.state.next),
            count,
            items: self.state.items + 1,
        };
    }

    // The same without words, by the next token t.
    pub fn leaf_of(&mut self, kind: u8, flags: u8, t: Token)
        requires { Near self.old.state }
        ensures { LeafedBy (head kind flags t.pos 0 0) self.old self.new }
    {
        self.put_leaf(plain(kind, flags, t.pos));
    }

    // An integer, by the next token t.
    pub fn int_of(&mut self, kind: Kind, t: Token)
        requires { Near self.old.state }
        ensures { LeafedBy (head (kind_number kind) 0 t.pos t.word1 t.word2) self.old self.new }
    {
        self.put_leaf(Head {
            word1: t.word1,
            word2: t.word2,
            ..Head::plain(kind, 0, t.pos)
        });
    }

    // A node over one name, by the next token t, a symbol, which its caller has read already.
    pub fn ident_node_of(&mut self, kind: u8, t: Token) -> Result<(), Stop>
        requires ready { Begins 8 self.old }
        requires next { t ≡ peek (read_by self.old) self.old.state.next }
        requires symbol { is_symbol t ≡ true }
        ensures reads { Read (λ s. parent s kind 0 (parse_ident s)) self.old self.new result }
        ensures within { IfOk result (λ _. Went 1 1 0 self.old self.new) }
    {
        let node = self.begin();
        self.put_name(t)?;
        self.close_of(node, kind, 0, t);
        Ok(())
    }

    // A node over the name of a constant, by the next token t, which starts with `$`.
    // Kept: beside ident_node_of, whose callers know another thing of the token and are promised another reader; one over the name of both would
    // have these two as its callers.
    pub fn const_node_of(&mut self, kind: u8, t: Token) -> Result<(), Stop>
        requires ready { Begins 8 self.old }
        requires next { t ≡ peek (read_by self.old) self.old.state.next }
        requires constant { is_const self.old.source.text.now t ≡ true }
        ensures reads { Read (λ s. parent s kind 0 (parse_const s)) self.old self.new result }
        ensures within { IfOk result (λ _. Went 1 1 0 self.old self.new) }
    {
        let node = self.begin();
        self.put_const(t)?;
        self.close_of(node, kind, 0, t);
        Ok(())
    }
}
