//! The texts of worked programs.

pub const FIRST: &[u8] = b"sial first\n\
aoindex i = 1, 2\n\
static a(i)\n\
scalar s\n\
do i\n\
a(i) = 3\n\
a(i) += a(i)\n\
s = a(i) * a(i)\n\
execute print_scalar s\n\
enddo i\n\
endsial first\n";

pub const WRAP: &[u8] = b"sial wrap\nscalar x\nx += 2\nexecute print_scalar x\nendsial wrap\n";

pub const SMALL: &[u8] = b"sial small\n\
aoindex m = 1, 2\n\
aoindex l = 1, 2\n\
moindex i = 1, 2\n\
temp v(m,l)\n\
temp a(l,i)\n\
temp p(m,i)\n\
temp q(m,i)\n\
distributed t(l,i)\n\
distributed r(m,i)\n\
static one(m,i)\n\
scalar esum\n\
scalar e\n\
scalar s\n\
create t\n\
create r\n\
pardo l, i\n\
execute compute_integrals a(l,i)\n\
put t(l,i) = a(l,i)\n\
endpardo l, i\n\
sip_barrier\n\
pardo m, i\n\
p(m,i) = 0\n\
do l\n\
get t(l,i)\n\
execute compute_integrals v(m,l)\n\
q(m,i) = v(m,l) * t(l,i)\n\
p(m,i) += q(m,i)\n\
enddo l\n\
put r(m,i) = p(m,i)\n\
esum += p(m,i) * p(m,i)\n\
endpardo m, i\n\
sip_barrier\n\
collective e += esum\n\
do m\n\
do i\n\
one(m,i) = 1\n\
s = r(m,i) * one(m,i)\n\
execute print_scalar s\n\
enddo i\n\
enddo m\n\
execute print_scalar e\n\
endsial small\n";

pub const CLASH: &[u8] = b"sial clash\n\
index i = 1, 2\n\
index j = 1, 1\n\
temp t(j)\n\
distributed d(j)\n\
create d\n\
pardo i\n\
do j\n\
t(j) = 1\n\
put d(j) = t(j)\n\
enddo j\n\
endpardo i\n\
endsial clash\n";

pub const APART: &[u8] = b"sial apart\n\
index i = 1, 2\n\
temp t(i)\n\
distributed d(i)\n\
create d\n\
pardo i\n\
if i == 1\n\
get d(i)\n\
else\n\
t(i) = 1\n\
put d(i) += t(i)\n\
endif\n\
endpardo i\n\
endsial apart\n";

pub const ORDER: &[u8] = b"sial order\n\
index i = 1, 1\n\
temp t(i)\n\
distributed d(i)\n\
create d\n\
pardo i\n\
get d(i)\n\
endpardo i\n\
sip_barrier\n\
pardo i\n\
t(i) = 1\n\
put d(i) += t(i)\n\
endpardo i\n\
endsial order\n";

pub const PART: &[u8] = b"sial part\n\
index i = 1, 2\n\
scalar s\n\
pardo i\n\
s += 1\n\
endpardo i\n\
if s > 0\n\
print \"yes\"\n\
endif\n\
endsial part\n";

pub const GONE: &[u8] = b"sial gone\n\
index i = 1, 2\n\
temp t(i)\n\
distributed d(i)\n\
create d\n\
pardo i\n\
get d(i)\n\
t(i) = d(i)\n\
endpardo i\n\
delete d\n\
endsial gone\n";

pub const AGAIN: &[u8] = b"sial again\n\
index i = 1, 1\n\
temp t(i)\n\
distributed d(i)\n\
create d\n\
pardo i\n\
t(i) = 5\n\
put d(i) = t(i)\n\
endpardo i\n\
delete d\n\
create d\n\
pardo i\n\
t(i) = 1\n\
put d(i) += t(i)\n\
endpardo i\n\
endsial again\n";

pub const TWICE: &[u8] = b"sial twice\n\
index i = 1, 1\n\
temp t(i)\n\
distributed d(i)\n\
create d\n\
create d\n\
endsial twice\n";

pub const CHUNKS: &[u8] = b"sial chunks\nindex i = 1, 16\npardo i\nendpardo i\nendsial chunks\n";

pub const TIGHT: &[u8] = b"sial tight\n\
index i = 1, 1\n\
distributed x(i)\n\
distributed y(i)\n\
distributed z(i)\n\
distributed u(i)\n\
scalar s\n\
create x\n\
create y\n\
create z\n\
create u\n\
do i\n\
get x(i)\n\
get y(i)\n\
s = z(i) * u(i)\n\
enddo i\n\
execute print_scalar s\n\
endsial tight\n";

pub const SHAPE: &[u8] = b"sial shape\n\
index i = 1, 2\n\
index j = 1, 2\n\
distributed a(i,j)\n\
distributed b(i,j)\n\
temp x(i,j)\n\
temp y(i,j)\n\
temp z(i,j)\n\
endsial shape\n";

pub const DISK: &[u8] = b"sial disk\n\
index i = 1, 3\n\
temp t(i)\n\
served v(i)\n\
scalar s\n\
pardo i\n\
execute compute_integrals t(i)\n\
prepare v(i) = t(i)\n\
endpardo i\n\
server_barrier\n\
do i\n\
request v(i) i\n\
t(i) = 1\n\
s = t(i) * v(i)\n\
execute print_scalar s\n\
enddo i\n\
endsial disk\n";

pub const BIG: &[u8] = b"sial big\n\
aoindex m = 1, nao\n\
aoindex n = 1, nao\n\
aoindex l = 1, nao\n\
aoindex s = 1, nao\n\
moindex i = 1, nmo\n\
moindex j = 1, nmo\n\
temp v(m,n,l,s)\n\
temp a(l,s,i,j)\n\
temp p(m,n,i,j)\n\
temp q(m,n,i,j)\n\
temp u(m,n,i,j)\n\
served vint(m,n,l,s)\n\
distributed t(l,s,i,j)\n\
distributed r(m,n,i,j)\n\
scalar esum\n\
scalar e\n\
create t\n\
create r\n\
pardo m, n, l, s\n\
execute compute_integrals v(m,n,l,s)\n\
prepare vint(m,n,l,s) = v(m,n,l,s)\n\
endpardo m, n, l, s\n\
pardo l, s, i, j\n\
execute compute_integrals a(l,s,i,j)\n\
put t(l,s,i,j) = a(l,s,i,j)\n\
endpardo l, s, i, j\n\
server_barrier\n\
sip_barrier\n\
pardo m, n, i, j\n\
p(m,n,i,j) = 0.0\n\
do l\n\
do s\n\
get t(l,s,i,j)\n\
request vint(m,n,l,s) l\n\
q(m,n,i,j) = vint(m,n,l,s) * t(l,s,i,j)\n\
p(m,n,i,j) += q(m,n,i,j)\n\
enddo s\n\
enddo l\n\
put r(m,n,i,j) = p(m,n,i,j)\n\
u(m,n,i,j) = 1.0\n\
esum += p(m,n,i,j) * u(m,n,i,j)\n\
endpardo m, n, i, j\n\
collective e += esum\n\
execute print_scalar e\n\
endsial big\n";
