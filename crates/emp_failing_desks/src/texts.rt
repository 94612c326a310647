//! Small files, and desks that keep them.
use emp_desk::memory_desk::MemoryDesk;
use std::alloc::Global;
use std::test::Fail;

pub const FIRMS: &str = "Variables pi1, pi2, q1, q2;
Positive Variables q1, q2;
Equations d1, d2;
d1.. pi1 =e= (10 - q1 - q2)*q1 - 2*q1;
d2.. pi2 =e= (10 - q1 - q2)*q2 - 2*q2;
Model m / all /;
Solve m using EMP;
";

pub const APART: &str = "Variables a, b, x, y;
Equations da, db;
da.. a =e= sqr(x - y);
db.. b =e= sqr(y - x - 1);
Model m / all /;
Solve m using EMP;
";

pub const TWO: &str = "equilibrium min a x da min b y db";

pub const REPORT: &str = "no equilibrium\nwork 2\nnodes 1\nrow 1 1\n";

pub const NONE: &str = "emp certificate 2\nrows 2 2 0\nnone\nfarkas 1:1 2:1\nend\n";

pub const SPLIT: &str = "Positive Variables x, y;
Equations f, g;
f.. y - 1 =g= 0;
g.. x + 1 =g= 0;
Model m / all /;
Solve m using EMP;
";

pub const KINK: &str = "Variables z, x, y;
Equations dz, c1, c2;
dz.. z =e= x - 3*y;
c1.. y =l= x;
c2.. y =l= 4 - x;
x.lo = 0;
x.up = 4;
Model m / all /;
Solve m using EMP minimizing z;
";

pub const RAY: &str = "Variables z, w, x, y;
Equations dz, dw;
dz.. z =e= -x;
dw.. w =e= sqr(y - x);
Model m / all /;
Solve m using EMP minimizing z;
";

/// A desk that keeps a model and an annotation under the names m and i, and a certificate under the name c.
pub fn desk_with(alloc: Global, model: &str, info: &str, cert: &str) -> Result<MemoryDesk, Fail> {
    let mut desk = MemoryDesk::new(alloc);
    desk.put("m", model.as_bytes())?;
    desk.put("i", info.as_bytes())?;
    desk.put("c", cert.as_bytes())?;
    Ok(desk)
}

/// The words of a line, which stand apart by one space.
pub fn words_of(alloc: Global, line: &str) -> Result<Vec<String>, Fail> {
    let mut words = Vec::new(alloc);
    for word in line.split(' ') {
        words.push(String::from_str(alloc, word)?)?;
    }
    Ok(words)
}
