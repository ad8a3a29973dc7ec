use crate::blocks::read;
use std::alloc::{AllocError, Global};
use std::process::Abort;
use std::test::Fail;
use txn_lang::BinOp;
use txn_parse::{RawExpr, RawStmt};
use txn_text::{FaultKind, TextFault, Token, token_text};

fn sign(op: BinOp) -> &'static str {
    match op {
        BinOp::Add => "+",
        BinOp::Sub => "-",
        BinOp::Mul => "*",
        BinOp::Div => "/",
        BinOp::Rem => "%",
        BinOp::Eq => "==",
        BinOp::Ne => "!=",
        BinOp::Lt => "<",
        BinOp::Le => "<=",
        BinOp::Gt => ">",
        BinOp::Ge => ">=",
        BinOp::And => "&",
        BinOp::Or => "|",
    }
}

fn put_token(out: &mut Vec<u8>, text: &[u8], token: Token) -> Result<(), AllocError> {
    out.extend_from_slice(token_text(text, token))
}

// An expression with all its parentheses.
fn put_expr(out: &mut Vec<u8>, text: &[u8], e: &RawExpr) -> Result<(), AllocError> {
    match e {
        RawExpr::Num(t) | RawExpr::Local(t) => put_token(out, text, *t),
        RawExpr::Neg(a) => {
            out.extend_from_slice(b"(-")?;
            put_expr(out, text, a.get())?;
            out.extend_from_slice(b")")
        }
        RawExpr::Not(a) => {
            out.extend_from_slice(b"(!")?;
            put_expr(out, text, a.get())?;
            out.extend_from_slice(b")")
        }
        RawExpr::Bin(op, operands) => {
            let (a, b) = operands.get();
            out.extend_from_slice(b"(")?;
            put_expr(out, text, a)?;
            out.extend_from_slice(sign(*op).as_bytes())?;
            put_expr(out, text, b)?;
            out.extend_from_slice(b")")
        }
    }
}

// How an expression that is printed groups: with all its parentheses, or as "syntax" where its first fault is that.
fn grouped(rt: &impl Abort, alloc: Global, e: &str) -> Result<Vec<u8>, Fail> {
    let mut text = Vec::new(alloc);
    text.extend_from_slice(b"{ print ")?;
    text.extend_from_slice(e.as_bytes())?;
    text.extend_from_slice(b" }")?;
    let mut out = Vec::new(alloc);
    match read(alloc, rt, text.as_slice()) {
        Ok((prog, _)) => match prog.body.stmts.get(0) {
            Some(RawStmt::Print(e)) => put_expr(&mut out, text.as_slice(), e)?,
            _ => panic!(rt; "it prints nothing"),
        },
        Err(
            TextFault::At {
                line: 1,
                kind: FaultKind::Syntax,
            },
        ) => out.extend_from_slice(b"syntax")?,
        Err(fault) => return Err(fault.into()),
    }
    Ok(out)
}

// Each level before each level, a sign and a `not` on both sides of each, and the same with parentheses that turn it.
const GROUPS: &str = "\
a or b or c => ((a|b)|c)
a or (b or c) => (a|(b|c))
a or b and c => (a|(b&c))
(a or b) and c => ((a|b)&c)
a or b == c => (a|(b==c))
(a or b) == c => ((a|b)==c)
a or b + c => (a|(b+c))
(a or b) + c => ((a|b)+c)
a or b * c => (a|(b*c))
(a or b) * c => ((a|b)*c)
a and b or c => ((a&b)|c)
a and (b or c) => (a&(b|c))
a and b and c => ((a&b)&c)
a and (b and c) => (a&(b&c))
a and b != c => (a&(b!=c))
(a and b) != c => ((a&b)!=c)
a and b - c => (a&(b-c))
(a and b) - c => ((a&b)-c)
a and b / c => (a&(b/c))
(a and b) / c => ((a&b)/c)
a < b or c => ((a<b)|c)
a < (b or c) => (a<(b|c))
a <= b and c => ((a<=b)&c)
a <= (b and c) => (a<=(b&c))
a > b >= c => syntax
(a > b) >= c => ((a>b)>=c)
a > (b >= c) => (a>(b>=c))
a == b + c => (a==(b+c))
(a == b) + c => ((a==b)+c)
a != b % c => (a!=(b%c))
(a != b) % c => ((a!=b)%c)
a - b or c => ((a-b)|c)
a - (b or c) => (a-(b|c))
a + b and c => ((a+b)&c)
a + (b and c) => (a+(b&c))
a - b < c => ((a-b)<c)
a - (b < c) => (a-(b<c))
a + b - c => ((a+b)-c)
a + (b - c) => (a+(b-c))
a + b * c => (a+(b*c))
(a + b) * c => ((a+b)*c)
a / b or c => ((a/b)|c)
a / (b or c) => (a/(b|c))
a % b and c => ((a%b)&c)
a % (b and c) => (a%(b&c))
a * b <= c => ((a*b)<=c)
a * (b <= c) => (a*(b<=c))
a / b - c => ((a/b)-c)
a / (b - c) => (a/(b-c))
a % b * c => ((a%b)*c)
a % (b * c) => (a%(b*c))
-a or not b => ((-a)|(!b))
-(a or not b) => (-(a|(!b)))
not a or -b => ((!a)|(-b))
not (a or -b) => (!(a|(-b)))
-a and not b => ((-a)&(!b))
-(a and not b) => (-(a&(!b)))
not a and -b => ((!a)&(-b))
not (a and -b) => (!(a&(-b)))
-a > not b => ((-a)>(!b))
-(a > not b) => (-(a>(!b)))
not a >= -b => ((!a)>=(-b))
not (a >= -b) => (!(a>=(-b)))
-a + not b => ((-a)+(!b))
-(a + not b) => (-(a+(!b)))
not a - -b => ((!a)-(-b))
not (a - -b) => (!(a-(-b)))
-a / not b => ((-a)/(!b))
-(a / not b) => (-(a/(!b)))
not a % -b => ((!a)%(-b))
not (a % -b) => (!(a%(-b)))
- - 7 => (-(-7))
not -a => (!(-a))
-not a => (-(!a))
-(a + b) * c => ((-(a+b))*c)
a == b + c and d => ((a==(b+c))&d)
a < b and c >= d => ((a<b)&(c>=d))
a < (b and c) >= d => syntax
(a < b) != (c > d) => ((a<b)!=(c>d))
a < b + c < d => syntax
";

#[test]
fn operators_group_by_level(rt: HostRuntime) -> Result<(), Fail> {
    for row in GROUPS.lines() {
        let (e, want) = row.split_once(" => ").ok_or("a row has no arrow")?;
        let out = grouped(&rt, rt.alloc(), e)?;
        assert_eq!(rt; out.as_slice(), want.as_bytes(), "{e}");
    }
    Ok(())
}
