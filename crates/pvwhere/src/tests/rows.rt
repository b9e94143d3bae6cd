//! Sources, and where each is refused, worked out by hand.

/// Each kind of refusal, without line markers.
pub(super) const KINDS: &str = r#"int main(void){return 0;}
=> 0
---
int a@;
=> 8
a.c:1:6: refused: byte
  int a@;
       ^
---
int a; /* x
=> 8
a.c:1:8: refused: token
  int a; /* x
         ^
---
int main(void){goto x;}
=> 8
a.c:1:16: refused: profile
  int main(void){goto x;}
                 ^
---
int main(void){return 0;
=> 8
a.c:1:1: refused: syntax
  int main(void){return 0;
  ^
---
int main(void){return 0;};
=> 8
a.c:1:26: refused: syntax
  int main(void){return 0;};
                           ^
---
typedef int t; t x = 4; int main(void){int t = 3; return t + x;}
=> 8
a.c:1:25: refused: syntax
  typedef int t; t x = 4; int main(void){int t = 3; return t + x;}
                          ^
---
int a; int b = c; int main(void){return 0;}
=> 8
a.c:1:8: refused: constraint
  int a; int b = c; int main(void){return 0;}
         ^
---
int f(void); int main(void){return f();}
=> 8
a.c:1:5: refused: unresolved
  int f(void); int main(void){return f();}
      ^
---
char *s = "f"; /* f */ int f(void); int main(void){return f();}
=> 8
a.c:1:28: refused: unresolved
  char *s = "f"; /* f */ int f(void); int main(void){return f();}
                             ^
---
int f(void){return 0;}
=> 8
a.c:1:23: refused: main
  int f(void){return 0;}
                        ^
---

=> 8
a.c:1:1: refused: main
`2  `
  ^
---
"#;

/// The same behind line markers (C17 6.10.4).
pub(super) const MARKED: &str = r#"# 1 "x.c"
int main(void) { return 0; }

=> 0
---
# 12 "z.c"
int a;
int b$;

=> 8
z.c:13:6: refused: byte
  int b$;
       ^
---
# 3 "t.c"
char c = 'ab';
=> 8
t.c:3:10: refused: token
  char c = 'ab';
           ^
---
# 5 "p.c" 2
static inline int f(void) { return 0; }

=> 8
p.c:5:8: refused: profile
  static inline int f(void) { return 0; }
         ^
---
# 7 "y.c"
int a;

int main(void) { return 0 }

=> 8
y.c:9:1: refused: syntax
  int main(void) { return 0 }
  ^
---
# 1 "x.c"
int a;
# 40 "include/b.h" 1
int b = c;
# 2 "x.c" 2
int main(void) { return 0; }

=> 8
include/b.h:40:1: refused: constraint
  int b = c;
  ^
---
# 1 "u.c"
# 30 "u.h" 1
extern int x;
# 2 "u.c" 2
int main(void) { return x; }

=> 8
u.h:30:12: refused: unresolved
  extern int x;
             ^
---
# 9 "m.c"
int x;
=> 8
m.c:9:7: refused: main
  int x;
        ^
---
# 9 "m.c"
int x;

=> 8
m.c:10:1: refused: main
`2  `
  ^
---
"#;

/// In the first line, in the last with a line feed behind it and without one, and in a declaration of several lines.
pub(super) const LINES: &str = r#"@
int b;
int c;

=> 8
a.c:1:1: refused: byte
  @
  ^
---
int a;
int b;
int c@

=> 8
a.c:3:6: refused: byte
  int c@
       ^
---
int a;
int b;
int c@
=> 8
a.c:3:6: refused: byte
  int c@
       ^
---
int a;
/* the second
   declaration */ int
f(void) {
  return 1 +;
}
int main(void) { return 0; }

=> 8
a.c:3:19: refused: syntax
     declaration */ int
                    ^
---
"#;

/// Tabs and control bytes.
pub(super) const ESCAPED: &str = "\tint\ta@;
=> 8
a.c:1:7: refused: byte
  \tint\ta@;
  \t   \t ^
---
int \u{1}a;
=> 8
a.c:1:5: refused: byte
  int ?a;
      ^
---
";

/// Lines of 10^5 bytes, and sources that are too long.
pub(super) const LONG: &str = r#"int a@`33333 +1 `;
=> 8
a.c:1:6: refused: byte
  int a@`64 +1 `+1
       ^
---
int a = 0`33333 +1 `@;
=> 8
a.c:1:100009: refused: byte
  int a = 0`63 +1 `+1
---
`600000 a `
=> 8
a.c:1:1048577: refused: size
  `100 a `
---
`300000 int
`
=> 8
a.c:262145:1: refused: size
`2  `
  ^
---
"#;

/// Numbers of the read and of the write that fail, 0 for none, words, and what is told, where `/` stands for a line feed.
pub(super) const CALLS: &str = r#"
0 0 a.c => 8/a.c:1:6: refused: byte/  int a@;/       ^/
3 0 a.c => 8/a.c:1:6: refused: byte/  int a@;/       ^/
1 0 a.c => 11/fault read/
2 0 a.c => 11/fault read/
0 0 b.c => 11/fault read/
0 1 a.c => 12/
0 2 a.c => 12/a.c
0 12 a.c => 12/a.c:1:6: refused: byte/  int a@;/
1 2 a.c => 12/fau
0 0  => 10/words/
0 0 a.c b.c => 10/words/
0 0 '' => 10/words/
0 0 a.c '' => 10/words/
0 0 '' a.c => 10/words/
0 0 check a.c => 10/words/
1 0 a.c b.c => 10/words/
0 2 a.c b.c => 12/wor
"#;
