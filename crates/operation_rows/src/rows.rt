//! Scripts of operations with their answers, worked out by hand: a line `volume` begins a new empty volume of two subvolumes.

/// Names made and removed, between two subvolumes too.
fn names_script() -> &'static str {
    "volume
mkdir /d = ok 257
create /d/x = ok 258
rmdir /d = notempty
unlink /d = isdir
create /d/x = exists
create /e/x = noent
create /d/x/y = notdir
rename /d /d/z = loop
link /d/x 256:/x = xdev
delattr /d/x user.k = noattr
symlink /s d/x = ok 259
write /s 0 q = loop
unlink /d/x = ok
rmdir /d = ok
lookup / = ok 256
lookup /s = ok 259
lookup /d = noent
lookup /d/x = noent
lookup /s/x = notdir
create / = exists
mkdir / = exists
symlink / t = exists
create /s = exists
create /n/m/x = noent
create /s/m/x = notdir
create 7:/a = noent
create 256:/a = ok 257
lookup 256:/a = ok 257
lookup /a = noent
link /s 256:/s = xdev
link /s 7:/s = xdev
link 7:/a 7:/b = noent
link /q 256:/q = xdev
rename 7:/a /b = xdev
exchange /s 256:/a = xdev
link / /l = isdir
link / / = isdir
link /s /s = exists
link /s / = exists
link /q /s = noent
link /q /s/x = noent
link /s/x /s = notdir
link /s /s/x = notdir
link /s /n/x = noent
link /s/x /n/x = noent
link /s /t = ok
lookup /t = ok 259
unlink /s = ok
lookup /s = noent
lookup /t = ok 259
unlink /t = ok
lookup /t = noent
mkdir /d = ok 260
link /d /e = isdir
link /d /d = isdir
create /f = ok 261
unlink /q = noent
unlink / = isdir
unlink /f/x = notdir
unlink /n/x = noent
rmdir /q = noent
rmdir /f = notdir
rmdir /f/x = notdir
rmdir /d/x = noent
rmdir / = loop
mkdir /d/e = ok 262
rmdir /d = notempty
rmdir /d/e = ok
rmdir /d = ok
rmdir /d = noent"
}

/// Renames and exchanges.
fn moves_script() -> &'static str {
    "volume
mkdir /d = ok 257
create /d/x = ok 258
create /f = ok 259
mkdir /e = ok 260
rename / /q = loop
rename / /d = notempty
rename / /f = notdir
rename / /e = loop
rename / / = loop
rename /f / = loop
rename /d / = loop
rename /q / = noent
rename /q /d = noent
rename /f/x /q/y = noent
rename /f/x / = notdir
rename /f /f/x = notdir
rename /f /d = isdir
rename /f /e = isdir
rename /d /f = notdir
rename /e /d = notempty
rename /d /d = ok
rename /d /d/x = notdir
mkdir /d/g = ok 261
rename /d /d/g = loop
create /d/g/y = ok 262
rename /d /d/g = notempty
rename /d /d/g/z = loop
rename /d /d/x/z = notdir
rename /d /d/q/z = noent
link /f /h = ok
rename /f /h = ok
lookup /f = ok 259
lookup /h = ok 259
rename /h /d/x = ok
lookup /d/x = ok 259
lookup /h = noent
lookup /f = ok 259
rename /e /d/e = ok
lookup /d/e = ok 260
lookup /e = noent
mkdir /i = ok 263
rename /d/e /i = ok
lookup /i = ok 260
lookup /d/e = noent
rename /d/g /g = ok
lookup /g/y = ok 262
rename /d /g/d = ok
lookup /g/d/x = ok 259
rename /g /g/d/z = loop
exchange /f /g/d/x = ok
exchange /g /g/y = loop
exchange /g/y /g = loop
exchange /g/d /g/d/x = loop
exchange / / = loop
exchange /f / = loop
exchange / /f = loop
exchange /q / = noent
exchange / /q = noent
exchange /f/x /q = noent
exchange /f/x / = notdir
exchange /f /f/x = notdir
exchange /i /g = ok
lookup /i = ok 261
lookup /g = ok 260
lookup /i/y = ok 262
lookup /g/y = noent
exchange /f /i/y = ok
lookup /f = ok 262
lookup /i/y = ok 259
volume
create /a = ok 257
create /b = ok 258
write /a 0 hi = ok 2
exchange /a /b = ok
lookup /a = ok 258
read /b 0 9 = ok hi
exchange /a / = loop"
}

/// Contents of files.
fn contents_script() -> &'static str {
    "volume
create /a = ok 257
write /a 16711680 *65536:7 = ok 65536
write /a 16777216 x = toolarge
truncate /a 16777217 = toolarge
write /a 16777215 x = ok 1
truncate /a 16777216 = ok
read /a 16777214 9 = ok *1:7+x
read /a 16777216 9 = ok *0:0
read /a 18446744073709551615 18446744073709551615 = ok *0:0
read /a 16711679 2 = ok *1:0+*1:7
write /a 18446744073709551615 x = toolarge
truncate /a 18446744073709551615 = toolarge
volume
create /a = ok 257
write /a 4095 xyz = ok 3
read /a 4094 9 = ok *1:0+xyz
truncate /a 4095 = ok
truncate /a 5000 = ok
read /a 0 65536 = ok *5000:0
write /a 0 123456789 = ok 9
read /a 0 9 = ok 123456789
read /a 3 2 = ok 45
read /a 5 0 = ok *0:0
write /a 2 ab = ok 2
read /a 0 9 = ok 12ab56789
truncate /a 4 = ok
read /a 0 9 = ok 12ab
truncate /a 6 = ok
read /a 0 9 = ok 12ab+*2:0
truncate /a 0 = ok
read /a 0 1 = ok *0:0
link /a /b = ok
write /b 0 z = ok 1
read /a 0 9 = ok z
mkdir /d = ok 258
symlink /s t = ok 259
write / 0 x = isdir
write /d 16777216 x = isdir
write /s 16777216 x = loop
write /q 16777216 x = noent
write /a/q 16777216 x = notdir
read /d 0 1 = isdir
read /s 0 1 = loop
read /s/q 0 1 = notdir
read /q 0 1 = noent
truncate /d 16777217 = isdir
truncate /s 16777217 = loop
truncate /q/q 16777217 = noent
truncate /a/q 16777217 = notdir"
}

/// Attributes.
fn attributes_script() -> &'static str {
    "volume
create /a = ok 257
setattr /a user.k v = ok
setattr /a user.k w = ok
getattr /a user.k = ok w
setattr /a user.k *1024:118 = ok
setattr /a user.k *1025:118 = toolarge
getattr /a user.k = ok *1024:118
setattr / user.r x = ok
getattr / user.r = ok x
symlink /s t = ok 258
setattr /s user.k v = ok
getattr /s user.k = ok v
setattr /q user.k *1025:118 = noent
setattr /a/q user.k *1025:118 = notdir
getattr /a user.z = noattr
getattr /q user.z = noent
getattr /a/q user.z = notdir
delattr /a user.z = noattr
delattr /q user.z = noent
delattr /a/q user.z = notdir
delattr /a user.k = ok
delattr /a user.k = noattr
getattr /a user.k = noattr
setattr /a *228:110+bhv8034 *1024:1 = ok
setattr /a *228:110+cby4m0u *1024:2 = ok
setattr /a *228:110+edw6u6a *1024:3 = ok
setattr /a *228:110+fgp7y5k x = collide
setattr /a *228:110+fgp7y5k *1025:1 = toolarge
setattr /a *228:110+edw6u6a *1024:4 = ok
getattr /a *228:110+edw6u6a = ok *1024:4
delattr /a *228:110+cby4m0u = ok
setattr /a *228:110+fgp7y5k x = ok
getattr /a *228:110+bhv8034 = ok *1024:1"
}

/// Long names and paths, and names of one hash: fourteen of 235 bytes take 3710 of an item's 3970 bytes.
fn crowds_script() -> &'static str {
    "volume
create /*255:110 = ok 257
lookup /*255:110 = ok 257
lookup /*254:110 = noent
create /q/2/3/4/5/6/7/8/9/10/11/12/13/14/15/16/17/18/19/20/21/22/23/24/25/26/27/28/29/30/31/32/33/34/35/36/37/38/39/40/41/42/43/44/45/46/47/48/49/50/51/52/53/54/55/56/57/58/59/60/61/62/63/64 = noent
create /*255:110/2/3/4/5/6/7/8/9/10/11/12/13/14/15/16/17/18/19/20/21/22/23/24/25/26/27/28/29/30/31/32/33/34/35/36/37/38/39/40/41/42/43/44/45/46/47/48/49/50/51/52/53/54/55/56/57/58/59/60/61/62/63/64 = notdir
volume
mkdir /d = ok 257
create /d/*228:110+bhv8034 = ok 258
create /d/*228:110+cby4m0u = ok 259
create /d/*228:110+edw6u6a = ok 260
create /d/*228:110+fgp7y5k = ok 261
create /d/*228:110+jipbqa9 = ok 262
create /d/*228:110+meql4dl = ok 263
create /d/*228:110+nfvm8gf = ok 264
create /d/*228:110+pmcg5ys = ok 265
create /d/*228:110+qglkhz2 = ok 266
create /d/*228:110+qkg4amx = ok 267
create /d/*228:110+rdkjdy8 = ok 268
create /d/*228:110+sbo90m3 = ok 269
create /d/*228:110+sndf9zy = ok 270
create /d/*228:110+tnn7uhf = ok 271
create /d/*228:110+wmi6ykl = collide
mkdir /d/*228:110+wmi6ykl = collide
symlink /d/*228:110+wmi6ykl t = collide
create /f = ok 272
link /f /d/*228:110+wmi6ykl = collide
rename /f /d/*228:110+wmi6ykl = collide
link /f /d/*228:110+bhv8034 = exists
rename /f /d/*228:110+bhv8034 = ok
lookup /d/*228:110+bhv8034 = ok 272
unlink /d/*228:110+cby4m0u = ok
create /d/*228:110+wmi6ykl = ok 273
create /d/*228:110+cby4m0u = collide
rename /d/*228:110+edw6u6a /d/*228:110+fgp7y5k = ok
lookup /d/*228:110+fgp7y5k = ok 260
create /d/*228:110+cby4m0u = ok 274
mkdir /e = ok 275
create /e/*228:110+edw6u6a = ok 276
rename /d/*228:110+jipbqa9 /d/*228:110+ypivzrz = ok
exchange /d/*228:110+ypivzrz /e/*228:110+edw6u6a = ok
lookup /d/*228:110+ypivzrz = ok 276
lookup /e/*228:110+edw6u6a = ok 262
create /d/*228:110+jipbqa9 = collide"
}

/// All scripts. They answer so on every empty volume of two subvolumes.
pub fn scripts() -> [&'static str; 5] {
    [
        names_script(),
        moves_script(),
        contents_script(),
        attributes_script(),
        crowds_script(),
    ]
}
