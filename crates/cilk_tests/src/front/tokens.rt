//! The tokens of texts, their places, and what has none.

ghost use Rattle.cilk_lex.specs.Reading.{IsWithin};

use crate::equal::equal;
use cilk_lex::{LexFault, Token, line_col, tokens};
use std::alloc::Global;
use std::fmt::Write;
use std::process::Abort;

// The bytes of a token, cut out of its text.
fn cut<'a>(text: &'a str, token: &Token) -> &'a str
    requires { IsWithin text.now token.now }
{
    &text[token.start as usize..token.end as usize]
}

// Each token's kind, its place and its bytes.
fn shown(rt: &impl Abort, alloc: Global, text: &str) -> String {
    let mut out = String::new(alloc);
    let list = tokens(alloc, text).expect(rt, text);
    for token in &list {
        let kind = token.kind;
        let start = token.start;
        let bytes = cut(text, token);
        write!(out, "{kind:?}@{start}:{bytes} ").expect(rt, "memory");
    }
    out
}

#[test]
fn tokens_at_their_places(rt: HostRuntime) {
    for (text, list) in [
        (
            "cilk int main(){int a=2,b;\n b=a*(3+4)-5;return b;}",
            "Word(Cilk)@0:cilk Word(Int)@5:int Name@9:main Mark(OpenParenthesis)@13:( \
             Mark(CloseParenthesis)@14:) Mark(OpenBrace)@15:{ Word(Int)@16:int Name@20:a Mark(Assign)@21:= \
             Number(2)@22:2 Mark(Comma)@23:, Name@24:b Mark(Semicolon)@25:; Name@28:b Mark(Assign)@29:= Name@30:a \
             Mark(Star)@31:* Mark(OpenParenthesis)@32:( Number(3)@33:3 Mark(Plus)@34:+ Number(4)@35:4 \
             Mark(CloseParenthesis)@36:) Mark(Minus)@37:- Number(5)@38:5 Mark(Semicolon)@39:; \
             Word(Return)@40:return Name@47:b Mark(Semicolon)@48:; Mark(CloseBrace)@49:} ",
        ),
        (
            "intx _ a1_B Int",
            "Name@0:intx Name@5:_ Name@7:a1_B Name@12:Int ",
        ),
        (
            "<<<=>>>=--1",
            "Mark(ShiftLeft)@0:<< Mark(LessOrEqual)@2:<= Mark(ShiftRight)@4:>> Mark(GreaterOrEqual)@6:>= Mark(Decrement)@8:-- Number(1)@10:1 ",
        ),
        (
            "a+++b&&&c!==d",
            "Name@0:a Mark(Increment)@1:++ Mark(Plus)@3:+ Name@4:b Mark(And)@5:&& Mark(Ampersand)@7:& Name@8:c \
             Mark(NotEqual)@9:!= Mark(Assign)@11:= Name@12:d ",
        ),
        // The last byte of the text.
        ("x<", "Name@0:x Mark(Less)@1:< "),
        (
            "2147483647 0 010 0x1F",
            "Number(2147483647)@0:2147483647 Number(0)@11:0 Number(8)@13:010 Number(31)@17:0x1F ",
        ),
        (
            "a/*b*/ \"c\\n\"\n#include <cilk.h>\nd",
            "Name@0:a Text@7:\"c\\n\" Include(Cilk)@13:#include <cilk.h> Name@31:d ",
        ),
    ] {
        let seen = shown(&rt, rt.alloc(), text);
        equal(&rt, seen.as_str(), list);
    }
}

const WORDS_AND_MARKS: &str = "int => Word(Int)@0:int
void => Word(Void)@0:void
if => Word(If)@0:if
else => Word(Else)@0:else
while => Word(While)@0:while
do => Word(Do)@0:do
for => Word(For)@0:for
break => Word(Break)@0:break
continue => Word(Continue)@0:continue
return => Word(Return)@0:return
cilk => Word(Cilk)@0:cilk
spawn => Word(Spawn)@0:spawn
sync => Word(Sync)@0:sync
inlet => Word(Inlet)@0:inlet
abort => Word(Abort)@0:abort
SYNCHED => Word(Synched)@0:SYNCHED
Cilk_lockvar => Word(CilkLockvar)@0:Cilk_lockvar
switch => Word(Switch)@0:switch
case => Word(Case)@0:case
default => Word(Default)@0:default
<<= => Mark(ShiftLeftAssign)@0:<<=
>>= => Mark(ShiftRightAssign)@0:>>=
+= => Mark(AddAssign)@0:+=
-= => Mark(SubtractAssign)@0:-=
*= => Mark(MultiplyAssign)@0:*=
/= => Mark(DivideAssign)@0:/=
%= => Mark(RemainderAssign)@0:%=
&= => Mark(BitAndAssign)@0:&=
^= => Mark(BitXorAssign)@0:^=
|= => Mark(BitOrAssign)@0:|=
== => Mark(Equal)@0:==
!= => Mark(NotEqual)@0:!=
<= => Mark(LessOrEqual)@0:<=
>= => Mark(GreaterOrEqual)@0:>=
&& => Mark(And)@0:&&
|| => Mark(Or)@0:||
<< => Mark(ShiftLeft)@0:<<
>> => Mark(ShiftRight)@0:>>
++ => Mark(Increment)@0:++
-- => Mark(Decrement)@0:--
( => Mark(OpenParenthesis)@0:(
) => Mark(CloseParenthesis)@0:)
{ => Mark(OpenBrace)@0:{
} => Mark(CloseBrace)@0:}
[ => Mark(OpenBracket)@0:[
] => Mark(CloseBracket)@0:]
; => Mark(Semicolon)@0:;
, => Mark(Comma)@0:,
? => Mark(Question)@0:?
: => Mark(Colon)@0::
+ => Mark(Plus)@0:+
- => Mark(Minus)@0:-
* => Mark(Star)@0:*
/ => Mark(Slash)@0:/
% => Mark(Percent)@0:%
& => Mark(Ampersand)@0:&
| => Mark(Bar)@0:|
^ => Mark(Caret)@0:^
~ => Mark(Tilde)@0:~
! => Mark(Exclamation)@0:!
< => Mark(Less)@0:<
> => Mark(Greater)@0:>
= => Mark(Assign)@0:=";

#[test]
fn words_and_marks(rt: HostRuntime) {
    for line in WORDS_AND_MARKS.lines() {
        let (text, list) = line.split_once(" => ").expect(&rt, line);
        let seen = shown(&rt, rt.alloc(), text);
        equal(&rt, seen.as_str().trim(), list);
    }
}

#[test]
fn texts_without_tokens(rt: HostRuntime) {
    for (text, fault) in [
        ("int @", LexFault::BadByte(4)),
        ("08", LexFault::BadNumber(0)),
        ("2147483648", LexFault::BadNumber(0)),
        (" 0x1G", LexFault::BadNumber(1)),
        ("a/*b*", LexFault::OpenComment(1)),
        ("a\"b", LexFault::OpenText(1)),
        ("\"a\\q\"", LexFault::BadEscape(2)),
        ("\"a\u{1}\"", LexFault::BadByte(2)),
        ("a\n #define b", LexFault::BadDirective(3)),
        ("a=1.5;@", LexFault::BadNumber(2)),
        ("é", LexFault::BadByte(0)),
        // A byte past ASCII right behind a mark.
        ("<é", LexFault::BadByte(1)),
    ] {
        equal(&rt, tokens(rt.alloc(), text).err(), Some(fault));
    }
    equal(&rt, LexFault::BadNumber(7).place(), 7);
    equal(&rt, LexFault::TooLong.place(), 0);
}

#[test]
fn longest_text(rt: HostRuntime) {
    let mut text = String::new(rt.alloc());
    for _ in 0..1_048_576 {
        text.push_str(" ").expect(&rt, "memory");
    }
    let list = tokens(rt.alloc(), text.as_str()).expect(&rt, "too long");
    equal(&rt, list.len(), 0);
    text.push_str("@").expect(&rt, "memory");
    equal(
        &rt,
        tokens(rt.alloc(), text.as_str()).err(),
        Some(LexFault::TooLong),
    );
}

#[test]
fn lines_and_columns(rt: HostRuntime) {
    let text = "ab\n\ncde\n";
    equal(&rt, line_col(text, 0), (1, 1));
    equal(&rt, line_col(text, 2), (1, 3));
    equal(&rt, line_col(text, 3), (2, 1));
    equal(&rt, line_col(text, 4), (3, 1));
    equal(&rt, line_col(text, 6), (3, 3));
    equal(&rt, line_col(text, 8), (4, 1));
}
