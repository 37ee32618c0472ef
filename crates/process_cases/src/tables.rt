//! Typed designs, and what comes of each.
//!
//! A line is what comes, a colon and the processes of a design, with semicolons between; in front of them, with `then` behind, its
//! functions. What comes is `fine`, or the rule and the token of the least break, and its instance where that isn't the top.
//! `signals:` begins a line of the signals of the designs below it, and `#` one that says what stands below in other words.

/// The signals of most designs: two inputs of eight bits, two variables, a net, an output, a clock, a variable with a declared value,
/// a variable of one bit and an input of one; and an input, an output, a variable and a clock of the second instance.
pub const SIGNALS: &str = "i:8,i:8,v:8,v:8,n:8,o:8,i:1,d:8,v:1,i:1,2i:8,2o:8,2v:8,2i:1";

/// Small modules, each with its own signals.
pub const WHOLE: &str = "\
# input a, output y: assign y = a; assign y = ~a;
signals: i:1,p:1
601@1: assign s1 s0 =;assign s1 s0 ~ =
# always_comb if (a) y = a;
603@2: comb s0 s1 s0 = if
# always_ff @(posedge a) y = 1'b0;
605@0: +0 s1 b0 =
# input [3:0] a, b, input k, output [3:0] s, logic [4:0] c; for each i assign c[i+1] = (a[i] & b[i]) | (c[i] & (a[i] ^ b[i])) and
# s[i] = a[i] ^ b[i] ^ c[i]; assign c[0] = k;
signals: i:4,i:4,i:1,p:4,v:5
fine: assign s4 [1:1] s0 [0:0] s1 [0:0] & s4 [0:0] s0 [0:0] s1 [0:0] ^ & | =;assign s3 [0:0] s0 [0:0] s1 [0:0] ^ s4 [0:0] ^ =;assign s4 [2:2] s0 [1:1] s1 [1:1] & s4 [1:1] s0 [1:1] s1 [1:1] ^ & | =;assign s3 [1:1] s0 [1:1] s1 [1:1] ^ s4 [1:1] ^ =;assign s4 [3:3] s0 [2:2] s1 [2:2] & s4 [2:2] s0 [2:2] s1 [2:2] ^ & | =;assign s3 [2:2] s0 [2:2] s1 [2:2] ^ s4 [2:2] ^ =;assign s4 [4:4] s0 [3:3] s1 [3:3] & s4 [3:3] s0 [3:3] s1 [3:3] ^ & | =;assign s3 [3:3] s0 [3:3] s1 [3:3] ^ s4 [3:3] ^ =;assign s4 [0:0] s2 =
# input c, output q, logic k: assign k = c; always_ff @(posedge k) q <= c;
signals: i:1,p:1,v:1
607@801: assign s2 s0 =;+2 s1 s0 <=
# input a, output z, logic y = 1'b0: always_comb y = a; always @* z = ~y;
signals: i:1,p:1,d:1
fine: comb s2 s0 =;star s1 s2 ~ =
# assign y = a;
601@1: assign s2 s0 =;star s1 s2 ~ =
# input en, input [1:0] d, output [1:0] q: always_latch if (en) begin q = d; end
signals: i:1,i:2,p:2
fine: latch s0 s2 s1 = B1 if
# q <= d; and q = q;
606@0: latch s0 s2 s1 <= if
604@3: latch s0 s2 s2 = if
# logic [1:0][3:0] x, input [1:0] i, input clk, input [3:0] d: always_ff x[1][i] <= 0; and always_comb x[0] = d;
signals: v:four packed 3 0 packed 1 0,i:2,i:1,i:4
fine: +2 s0 b1 @4 s1 @1 b0 <=;comb s0 b0 @4 s3 =
# x[clk][0] may be any part of x; and x[1][3:1] = 0;
601@4: +2 s0 s2 @4 [0:0] b0 <=;comb s0 b1 @4 [3:1] b000 =
# members of a union share their bits
signals: v:four packed 7 0 four packed 7 0 union 2,i:8
601@2: comb s0 .0:8 s1 =;comb s0 .1:8 s1 =
# an edge on an input that is a variable
signals: j:1,v:1
fine: +0 s1 b0 <=
# output y: task t(output logic p); endtask always_comb t(y);
signals: p:1
603@0: task G1 O2:1 B0 endfunction then comb s0 t0:1
# task two(output logic p, output logic q); p = 1'b0; q = 1'b1; endtask always_comb two(y, y);
fine: task G1 O2:1 O3:1 l2:1 b0 = l3:1 b1 = B2 endfunction then comb s0 s0 t0:2";

/// Designs that break rules on bits, assignments, edges or inputs.
pub const REFUSED: &str = "\
# two writers: always_comb x = a; and always_comb x = b;
601@1: comb s2 s0 =;comb s2 s1 =
# assign w = a; assign w = b;
601@1: assign s4 s0 =;assign s4 s1 =
# always_comb and always_ff
601@1: comb s2 s0 =;+6 s2 s1 <=
# two edge processes
601@1: +6 s2 s0 <=;-6 s2 s1 <=
# one bit of two parts: x[3:0] and x[4:3]
601@2: comb s2 [3:0] b0000 =;comb s2 [4:3] b00 =
# the later one of both: y = a; x = a; and x = b;
601@3: comb s3 s0 = s2 s0 = B2;comb s2 s1 =
# a part of a concatenation: {x, y} = 0; and y = a;
601@2: comb s2 s3 b0000000000000000 ==;comb s3 s0 =
# an index that isn't known may be any bit: x[a[2:0]] <= 1; and assign x[0] = 1;
601@4: +6 s2 s0 [2:0] @1 b0 <=;assign s2 [0:0] b1 =
# a bit that a turn of a loop writes: for (int i = 0; i < 4; i++) x[i] = 0; and assign x[3] = 1;
601@10: comb U5:0100 s2 l5:int @1 b0 = F5;assign s2 [3:3] b1 =
# a variable with a declared value that is assigned, or connected
601@1: assign s7 s0 =
601@1: port11 s7 s11 =
# a connected input that the child writes too
601@1 of 2: port10 s10 s0 =;2:assign s10 s12 =
# one bit of a variable with a declared value
601@2: assign s7 [0:0] b1 =
# two connections to one net
601@1: port11 s4 s11 =;port11 s4 s11 =
# in the text of the second instance
601@1 of 2: 2:comb s12 s10 =;2:assign s12 s10 =
# not on every path: if (c) x = a;
603@2: comb s6 s2 s0 = if
603@2: star s6 s2 s0 = if
# one of two: if (c) x = a; else y = a;
603@2: comb s6 s2 s0 = s3 s0 = else
# an else inside: if (c) if (d) x = a; else x = b;
603@3: comb s6 s9 s2 s0 = s2 s1 = else if
# a part of it only in one arm: if (c) x = a; else x[3:0] = 0;
603@2: comb s6 s2 s0 = s2 [3:0] b0000 = else
# a case without default, with a default that doesn't write it, with an item that doesn't
603@3: comb s0 b00000000 s2 s1 = C1
603@3: comb s0 b00000000 s2 s1 = B0 E1
603@4: comb s0 b00000000 b00000001 s2 s1 = B0 s2 s0 = E11
# a constant selector without default, and a constant condition
603@4: comb b0 b0 b1 s2 s0 = s2 s1 = C11
603@2: comb b1 s2 s0 = if
# the instance comes before the token
603@2: comb s6 s2 s0 = if;port13 s13 s6 =;2:+13 s12 s10 =
# an index that isn't known: x[a[2:0]] = 0;
603@4: comb s2 s0 [2:0] @1 b0 =
603@4: assign s4 s0 [2:0] @1 b0 =
# a turn that may end before the write: for (..) begin if (c) break; x[i] = 0; end
603@11: comb U5:0100 s6 break if s2 l5:int @1 b0 = B2 F5
# the last turn leaves its bit out where the one before it ends the loop: for (..) begin x[i] = 0; if (c) break; end
603@10: comb U5:0100 s2 l5:int @1 b0 = s6 break if B2 F5
# continue: for (..) begin if (c) continue; x[i] = 0; end
603@11: comb U5:0100 s6 continue if s2 l5:int @1 b0 = B2 F5
# a turn that may not write: for (..) if (c) x[i] = 0;
603@11: comb U5:0100 s6 s2 l5:int @1 b0 = if F5
# and only the last one leaves a bit out: x[2:0] = 0; for (int i = 0; i < 4; i++) if (c) x[i] = 0;
603@14: comb s2 [2:0] b000 = U5:0100 s6 s2 l5:int @1 b0 = if F5 B2
# an own bit before it is written: y = x; x = a;
604@2: comb s3 s2 = s2 s0 = B2
604@2: comb s2 s2 =
# x = x + 1;
604@2: comb s2 s2 b00000001 + =
604@2: assign s4 s4 =
604@2: star s2 s2 =
# in a condition: if (x) x = a; else x = b;
604@1: comb s2 s2 s0 = s2 s1 = else
# a bit of both parts: x[3:0] = x[4:1];
604@4: comb s2 [3:0] s2 [4:1] =
# the indices of all parts are read before the first one is written: {x, y[x[2:0]]} = 0;
604@4: comb s2 s3 s2 [2:0] @1 b000000000 ==
# an index that isn't known may be any: w[0] = w[a[2:0]];
604@6: assign s4 [0:0] s4 s0 [2:0] @1 =
# a turn reads the bit of the next one: for (..) x[i] = x[i + 1];
604@15: comb U5:0100 s2 l5:int @1 s2 l5:int k1 + @1 = F5
# a latch that reads what it holds: if (c) x = x; and if (c) x = a; y = x;
604@3: latch s6 s2 s2 = if
604@5: latch s6 s2 s0 = if s3 s2 = B2
# a local that wasn't written
604@2: comb s2 l5:8 = d5:8 B1
604@2: +6 s2 l5:8 <= d5:8 B1
# one that is declared in a loop starts anew in each turn: t[i] = a[i]; x[i] = t[i - 1];
604@21: comb U5:0100 l6:8 l5:int @1 s0 l5:int @1 = s2 l5:int @1 l6:8 l5:int b11111111111111111111111111111111 + @1 = d6:8 B2 F5
# only on one path: begin logic [7:0] t; if (c) t = a; x = t; end
604@5: comb s6 l5:8 s0 = if s2 l5:8 = d5:8 B2
# a blocking assignment in an edge process
605@0: +6 s2 s0 =
605@0: +6 s6 s2 s0 = if
605@0: +6 s2 [3:0] b0000 =
# {x, t} = ..
605@0: +6 s2 l5:8 b0000000000000000 == d5:8 B1
605@0: +6 U5:0100 s2 l5:int @1 b0 = F5
# a nonblocking one in any other process, or to a local
606@0: comb s2 s0 <=
606@0: assign s4 s0 <=
606@0: star s2 s0 <=
606@0: latch s6 s2 s0 <= if
606@0: +6 l5:8 s0 <= d5:8 B1
606@0: +6 s2 l5:8 b0000000000000000 <== d5:8 B1
# an edge on eight bits, on a variable, on the second of a list
607@801: +0 s2 s1 <=
607@801: +8 s2 s1 <=
607@801: assign s8 s6 =;+8 s2 s1 <=
607@802: +6/-8 s2 s0 <=
# on an input of a child that nothing is connected to, or a variable, or an expression
607@801 of 2: 2:+13 s12 s10 <=
607@801 of 2: port13 s13 s8 =;2:+13 s12 s10 <=
607@801 of 2: port13 s13 s0 =;2:+13 s12 s10 <=
607@801 of 2: port13 s13 s6 ! =;2:+13 s12 s10 <=
# an input that is written
611@1: comb s0 s2 =
611@1: assign s0 s1 =
611@1: +6 s0 s1 <=
611@2: latch s6 s0 s1 = if
611@1 of 2: 2:assign s10 s12 =
# by a connection to an output
611@1: port11 s0 s11 =
# the least of two rules at one token
601@1: comb s0 s2 =;comb s0 s3 =";

/// Designs that break no rule.
pub const ACCEPTED: &str = "\
fine: 
fine: comb s2 s0 =
fine: assign s4 s0 =;assign s5 s4 =
fine: +6 s2 s0 <=
# bits of one signal by two processes: x[3:0] = 0; and x[7:4] = 0;
fine: comb s2 [3:0] b0000 =;comb s2 [7:4] b0000 =
fine: +6 s2 [3:0] b0000 <=;-6 s2 [7:4] b0000 <=
fine: assign s4 [0:0] b1 =;assign s4 [7:1] b0000000 =
# the bits that the turns of a loop write, and those behind them
fine: comb U5:0100 s2 l5:int @1 b0 = F5;assign s2 [7:4] b0000 =
# a process that writes a bit twice
fine: comb s2 s0 = s2 s1 = B2
fine: +6 s2 s0 <= s6 s2 s1 <= if B2
# a variable with a declared value that a procedural process writes
fine: comb s7 s0 =
fine: +6 s7 s0 <=
fine: star s7 s0 =
# a connection to a net
fine: port11 s4 s11 =
# both arms: if (c) x = a; else x = b;
fine: comb s6 s2 s0 = s2 s1 = else
# a default before: x = a; if (c) x = b;
fine: comb s2 s0 = s6 s2 s1 = if B2
fine: star s2 s0 = s6 s2 s1 = if B2
# the other half in the other statement: if (c) x[3:0] = 0; else x[3:0] = 1; x[7:4] = 2;
fine: comb s6 s2 [3:0] b0000 = s2 [3:0] b0001 = else s2 [7:4] b0010 = B2
# a case with a default
fine: comb s0 b00000000 s2 s1 = s2 s0 = E1
fine: comb s2 s0 = s0 b00000000 s2 s1 = C1 B2
# a loop that writes all bits of which it writes some
fine: comb U5:01000 s2 l5:int @1 b0 = F5
# a bit that only some turns write was written before the loop
fine: comb s2 [3:0] b0000 = U5:0100 s6 s2 l5:int @1 b0 = if F5 B2
# what is written behind a break was written before the loop
fine: comb s2 s0 = U5:0100 s6 break if s2 l5:int @1 b0 = B2 F5 B2
fine: comb s2 s0 = U5:0100 s6 continue if s2 l5:int @1 b0 = B2 F5 B2
# an edge process may leave a bit out, also by an index that isn't known, and read its own bits
fine: +6 s6 s2 s0 <= if
fine: +6 s2 s0 [2:0] @1 b0 <=
fine: +6 s2 s2 b00000001 + <=
fine: +6 s2 [7:1] s2 [6:0] <=
# an index that isn't known, behind a write of all bits
fine: comb s2 s0 = s2 s0 [2:0] @1 b0 = B2
# a latch
fine: latch s6 s2 s0 = if
fine: latch s6 s2 s0 = if;assign s4 s2 =
fine: latch s0 b00000000 s2 s1 = C1
fine: latch s2 s0 [2:0] @1 b0 =
# an own bit that was written before: x = a; y = x;
fine: comb s2 s0 = s3 s2 = B2
fine: comb s2 s0 = s2 s2 b00000001 + = B2
fine: latch s6 s2 s0 = s3 s2 = B2 if
# bits that the process doesn't write: x[3:0] = x[7:4];
fine: comb s2 [3:0] s2 [7:4] =;comb s2 [7:4] b0000 =
# a turn reads the bit of the one before it: x[i + 1] = x[i];
fine: comb U5:0100 s2 l5:int k1 + @1 s2 l5:int @1 = F5;assign s2 [0:0] b1 =
fine: comb s2 [0:0] b1 = U5:0100 s2 l5:int k1 + @1 s2 l5:int @1 = F5 B2
# the carries of an adder, bit by bit: c[i + 1] = a[i] & c[i]; and c[0] = 1;
fine: assign s4 [1:1] s0 [0:0] s4 [0:0] & =;assign s4 [2:2] s0 [1:1] s4 [1:1] & =;assign s4 [0:0] b1 =
# a variable with a declared value and a process that waits for it
fine: comb s7 s0 =;star s3 s7 =
# constant indices outside of a signal write no bit: x[8] = 0; x[3'b0x0] = 0; x[9:6] = 0;
fine: comb s2 b1000 @1 b0 =;comb s2 s0 =
fine: comb s2 b0x0 @1 b0 =;comb s2 s0 =
fine: comb s2 [9:6] b0000 =;comb s2 [5:0] b000000 =
# processes in a circle: a rule of the next phase
fine: assign s4 s5 =;assign s5 s4 =
# a local that was written, or that starts with a value
fine: comb l5:8 s0 = s2 l5:8 = d5:8 B2
fine: comb s0 V5:8 s2 l5:8 = B1
fine: +6 l5:8 s0 = s2 l5:8 <= d5:8 B2
fine: comb s6 l5:8 s0 = l5:8 s1 = else s2 l5:8 = d5:8 B2
# by halves, and by the turn before, where the local is declared outside the loop
fine: comb l5:8 [3:0] s0 [3:0] = l5:8 [7:4] s0 [7:4] = s2 l5:8 = d5:8 B3
fine: comb U5:0100 l6:8 l5:int @1 s0 l5:int @1 = s2 l5:int @1 l6:8 l5:int b11111111111111111111111111111111 + @1 = B2 F5 d6:8 B1
# edges on the clock of the top, both ways, and of a child whose clock a plain name joins to it
fine: +6/-9 s2 s0 <=
fine: port13 s13 s6 =;2:+13 s12 s10 <=
# a connection to an input
fine: port10 s10 s0 =
fine: port10 s10 s0 s1 + =;2:assign s11 s10 =
# loops that can be unrolled
fine: +6 U5:0100 s2 l5:int @1 s0 l5:int @1 <= F5
fine: comb s2 b00000000 = U5:0100 U6:0100 s2 l5:int @1 s0 l6:int @1 = F6 F5 B2
# a bit of each of two signals by one concatenation
fine: comb s2 s3 s0 s1 {2 ==
fine: +6 s2 s3 s0 s1 {2 <==";

/// Loops that can be unrolled, and such as can't.
pub const LOOPS: &str = "\
# a bound that reads a signal: for (int i = 0; i < a; i++) x = b;
608@0: comb k0 l5:int s0 < l5:int k1 + s2 s1 = F5
608@0: +6 k0 l5:int s0 < l5:int k1 + s2 s1 <= F5
608@0: latch k0 l5:int s0 < l5:int k1 + s2 s1 = F5
# a first value, or a step, that does
608@0: comb s0 l5:int k1 < l5:int k1 + s2 s1 = F5
608@0: comb k0 l5:int k1 < l5:int s0 + s2 s1 = F5
# a variable that is written in the loop
608@0: comb U5:0100 l5:int k0 = F5
608@0: task G1 O2:int l2:int k0 = endfunction then comb U5:0100 l5:int t0:1 F5
# a loop inside another one whose bound reads the outer variable
fine: comb s2 s0 = U5:0100 k0 l6:int l5:int < l6:int k1 + s2 l6:int @1 b0 = F6 F5 B2
# a loop without turns
fine: comb s2 s0 = U5:00 s2 l5:int @1 b0 = F5 B2";

/// Functions and tasks that processes call.
pub const FUNCTIONS: &str = "\
# f = a; and x = f(a);
fine: G8 I1:8 l0:8 l1:8 = endfunction then comb s2 s0 f0:1:8 =
# a result that isn't written on every path: if (a) f = a;
603@77: G8 I1:8 l1:8 l0:8 l1:8 = if endfunction then comb s2 s0 f0:1:8 =
# which no process calls
fine: G8 I1:8 l1:8 l0:8 l1:8 = if endfunction then comb s2 s0 =
# by another function that a process calls
603@77: G8 I1:8 l1:8 l0:8 l1:8 = if endfunction G8 I1:8 l0:8 l1:8 f0:1:8 = endfunction then comb s2 s0 f1:1:8 =
# by one that none calls
fine: G8 I1:8 l1:8 l0:8 l1:8 = if endfunction G8 I1:8 l0:8 l1:8 f0:1:8 = endfunction then comb s2 s0 =
# a return before the write: if (a) return; f = a;
603@77: G8 I1:8 l1:8 return if l0:8 l1:8 = B2 endfunction then comb s2 s0 f0:1:8 =
# behind it
fine: G8 I1:8 l0:8 l1:8 = l1:8 return if B2 endfunction then comb s2 s0 f0:1:8 =
# behind a jump that always comes
603@77: G8 I1:8 return l0:8 l1:8 = B2 endfunction then comb s2 s0 f0:1:8 =
# with constant arguments a call is a constant index: x[f(8'd1)] = 0;
fine: G8 I1:8 l0:8 l1:8 = endfunction then comb s2 b00000001 f0:1:8 @1 b0 =;comb s2 [7:2] b000000 =
# a result that is read before: f = f + 1;
604@2: G8 I1:8 l0:8 l0:8 b00000001 + = endfunction then comb s2 s0 f0:1:8 =
# and behind: f = a; f = f + 1;
fine: G8 I1:8 l0:8 l1:8 = l0:8 l0:8 b00000001 + = B2 endfunction then comb s2 s0 f0:1:8 =
# a local that wasn't written: f = t;
604@2: G8 I1:8 l0:8 l2:8 = d2:8 B1 endfunction then comb s2 s0 f0:1:8 =
# a nonblocking assignment
606@0: G8 I1:8 l0:8 l1:8 <= l0:8 l1:8 = B2 endfunction then comb s2 s0 f0:1:8 =
# a loop whose bound isn't known
608@0: G8 I1:8 l0:8 l1:8 = k0 l5:int l1:8 < l5:int k1 + l0:8 l1:8 = F5 B2 endfunction then comb s2 s0 f0:1:8 =
# a loop that can be unrolled
fine: G8 I1:8 U5:01000 l0:8 l5:int @1 l1:8 l5:int @1 = F5 endfunction then comb s2 s0 f0:1:8 =
# its last turn leaves a bit out
603@77: G8 I1:8 U5:0111 l0:8 l5:int @1 l1:8 l5:int @1 = F5 endfunction then comb s2 s0 f0:1:8 =
# an output of a task that is a signal, in an edge process
605@2: task G1 I1:8 O2:8 l2:8 l1:8 = endfunction then +6 s0 s2 t0:2
# in another one
fine: task G1 I1:8 O2:8 l2:8 l1:8 = endfunction then comb s0 s2 t0:2
# that two processes write
601@2: task G1 I1:8 O2:8 l2:8 l1:8 = endfunction then comb s0 s2 t0:2;assign s2 s1 =
# or that isn't on every path
603@3: task G1 I1:8 O2:8 l2:8 l1:8 = endfunction then comb s6 s0 s2 t0:2 if
# or an input
611@2: task G1 I1:8 O2:8 l2:8 l1:8 = endfunction then comb s1 s0 t0:2
# or a local
fine: task G1 I1:8 O2:8 l2:8 l1:8 = endfunction then +6 s0 l5:8 t0:2 s2 l5:8 <= d5:8 B2
# outputs are written one after the other: t(x, y[x[2:0]]) and t(y[x[2:0]], x)
fine: task G1 O2:8 O3:1 l2:8 b00000000 = l3:1 b0 = B2 endfunction then latch s2 s3 s2 [2:0] @1 t0:2
604@3: task G1 O2:1 O3:8 l2:1 b0 = l3:8 b00000000 = B2 endfunction then latch s3 s2 [2:0] @1 s2 t0:2
# which no process calls
fine: task G1 I1:8 O2:8 l1:8 l2:8 l1:8 = if endfunction then comb s2 s0 =
# an output that isn't on every path: task t(input a, output b); if (a) b = a; endtask
603@0: task G1 I1:8 O2:8 l1:8 l2:8 l1:8 = if endfunction then comb s0 s2 t0:2
# or that is read before: b = b;
604@2: task G1 I1:8 O2:8 l2:8 l2:8 = endfunction then comb s0 s2 t0:2";

/// Wide arrays: an array and what stands behind it, a clock, an address, a byte, and a variable of a byte.
pub const MEMORIES: &str = "\
# always_ff m[i] <= a; and with y = m[i];
signals: v:four packed 7 0 array 0 8192,i:1,i:14,i:8,v:8
fine: +1 s0 s2 a0 s3 <=
fine: +1 s0 s2 a0 s3 <=;comb s4 s0 s2 a0 =
fine: +1 s1 s0 s2 a0 s3 <= if;-1 s4 s0 s2 a0 <=
# that nobody writes, or that a latch does
701@901:
701@901: comb s4 s0 s2 a0 =
701@901: latch s0 s2 a0 s3 =
# that stands somewhere without an index
701@901: +1 s0 s2 a0 s3 <= s0 s0 <= B2
# of which a combinational process writes another element
701@901: +1 s0 b00000000000001 a0 s3 <=;comb s0 b00000000000000 a0 s3 =
# with a declared value, as an output, in an interface
signals: d:four packed 7 0 array 0 8192,i:1,i:14,i:8,v:8
701@901: +1 s0 s2 a0 s3 <=
signals: p:four packed 7 0 array 0 8192,i:1,i:14,i:8,v:8
701@901: +1 s0 s2 a0 s3 <=
signals: 3v:four packed 7 0 array 0 8192,i:1,i:14,i:8,v:8
701@901 of 3: +1 s0 s2 a0 s3 <=
# of two-state bits, or of some
signals: v:two packed 7 0 array 0 8192,i:1,i:14,i:8,v:8
701@901: +1 s0 s2 a0 s3 <=
signals: v:four two plain 2 array 0 40000,i:1,i:17,i:2,v:8
701@901: +1 s0 s2 a0 .0:1 s1 <=
# a packed struct of both is four-state
signals: v:four two struct 2 array 0 40000,i:1,i:17,i:2,v:8
fine: +1 s0 s2 a0 s3 <=
# of 65,536 bits
signals: v:four packed 7 0 array 0 8191,i:1,i:13,i:8,v:8
fine: latch s0 s2 a0 s3 =
# where an edge process that can't be unrolled writes it, and where another process that can't be unrolled names other signals
signals: v:four packed 7 0 array 0 8192,i:1,i:14,i:8,v:8
608@0 of 2: 2:+1 k0 l5:int s3 < l5:int k1 + s0 s2 a0 s3 <= F5
701@901: 2:latch k0 l5:int s3 < l5:int k1 + s4 s3 = F5";
